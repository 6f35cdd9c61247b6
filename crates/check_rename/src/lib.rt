// What RENAME checks, in the order that decides the status.
#![tactic(auto)]

ghost use Rattle.std.specs.Prelude.{◌≡◌, ◌+◌, ◌<◌, ◌≤◌, length};
ghost use Rattle.spec.specs.Image.{objects};
ghost use Rattle.spec.specs.Procedures.{cut};
ghost use Rattle.spec.specs.Procedures.Removal.{is_replaceable, onto, check_move, check_rename};
ghost use Rattle.spec.specs.Room.{find_name};
ghost use Rattle.laws.proofs.GoodRecords.{GoodRecords};
ghost use Rattle.check_rename.specs.Meaning.{onto_checked_of, renamable_of};

use check_handles::handle::reach_directory;
use check_handles::text::{check_name, is_dots};
use check_tree::{has_entries, is_within};
use kinds::call::{NameIn, Part};
use kinds::numbers::{NameNumber, ObjectNumber, Status};
use store_records::name::name_child;
use store_records::object::is_directory;
use store_search::search::find_name;

// What the new name is: not there, a name of the object that is renamed, or the name record of an object that is replaced.
#[derive(Clone, Copy)]
pub enum Onto {
    NewName,
    SameObject,
    Replacing(NameNumber),
}

// Both directories and the name record of what may be renamed, and what the new name is.
#[derive(Clone, Copy)]
pub struct Renamable {
    pub source: ObjectNumber,
    pub target: ObjectNumber,
    pub name: NameNumber,
    pub onto: Onto,
}

// Whether `other` gives way to `o`: both are files, or both are directories and `other` is empty.
#[tactic(auto, unfolding(spec::specs::Procedures::Removal::is_replaceable))]
fn is_replaceable(store: &[u8], o: ObjectNumber, other: ObjectNumber) -> bool
    requires good_records { GoodRecords store.now }
    requires o_bound { o.0 < objects store.now }
    requires other_bound { other.0 < objects store.now }
    ensures { result ≡ is_replaceable store.now o.0 other.0 }
{
    if is_directory(store, o) {
        is_directory(store, other) && !has_entries(store, other)
    } else {
        !is_directory(store, other)
    }
}

// What the name `to` in directory `e` is to object `o`; another object that does not give way, EXIST.
#[tactic(auto, unfolding(spec::specs::Procedures::Removal::check_replace))]
fn check_onto(
    store: &[u8],
    call: &[u8],
    o: ObjectNumber,
    e: ObjectNumber,
    to: Part,
) -> Result<Onto, Status>
    requires good_records { GoodRecords store.now }
    requires o_bound { o.0 < objects store.now }
    requires length_in_bounds { to.start + to.length ≤ length call.now }
    ensures { onto_checked_of result ≡ onto store.now o.0 (find_name store.now e.0 (cut call.now to)) }
{
    let Some(m) = find_name(store, e, call, to) else {
        return Ok(Onto::NewName);
    };
    let other = name_child(store, m);
    if other == o {
        return Ok(Onto::SameObject);
    }
    if !is_replaceable(store, o, other) {
        return Err(Status::EXIST);
    }
    Ok(Onto::Replacing(m))
}

// RENAME, in both directories: a name "." or "..", INVAL; no such name, NOENT; a directory into itself or below, INVAL; then the new name.
#[tactic(auto, unfolding(spec::specs::Procedures::Removal::check_move))]
fn check_move(
    store: &[u8],
    call: &[u8],
    d: ObjectNumber,
    e: ObjectNumber,
    from: Part,
    to: Part,
) -> Result<Renamable, Status>
    requires good_records { GoodRecords store.now }
    requires e_bound { e.0 < objects store.now }
    requires length_in_bounds { from.start + from.length ≤ length call.now }
    requires length_in_bounds_2 { to.start + to.length ≤ length call.now }
    ensures { renamable_of result ≡ check_move store.now d.0 e.0 (cut call.now from) (cut call.now to) }
{
    check_name(call, from)?;
    check_name(call, to)?;
    if is_dots(call, from) || is_dots(call, to) {
        return Err(Status::INVAL);
    }
    let name = find_name(store, d, call, from).ok_or(Status::NOENT)?;
    let o = name_child(store, name);
    if is_within(store, o, e) {
        return Err(Status::INVAL);
    }
    let onto = check_onto(store, call, o, e, to)?;
    Ok(Renamable {
        source: d,
        target: e,
        name,
        onto,
    })
}

// RENAME: both directories, from first, then both names.
#[tactic(auto, unfolding(spec::specs::Procedures::Removal::check_rename))]
pub fn check_rename(store: &[u8], call: &[u8], p: NameIn, q: NameIn) -> Result<Renamable, Status>
    requires good_records { GoodRecords store.now }
    requires length_in_bounds { p.directory.start + p.directory.length ≤ length call.now }
    requires length_in_bounds_2 { p.name.start + p.name.length ≤ length call.now }
    requires length_in_bounds_3 { q.directory.start + q.directory.length ≤ length call.now }
    requires length_in_bounds_4 { q.name.start + q.name.length ≤ length call.now }
    ensures { renamable_of result ≡ check_rename store.now (cut call.now p.directory) (cut call.now p.name) (cut call.now q.directory) (cut call.now q.name) }
{
    let d = reach_directory(store, call, p.directory)?;
    let e = reach_directory(store, call, q.directory)?;
    check_move(store, call, d, e, p.name, q.name)
}
