// The directory that the path of MNT leads to.
#![tactic(auto)]

ghost use Rattle.std.specs.Prelude.{◌≡◌, ◌+◌, ◌≤◌, ◌<◌, length};
ghost use Rattle.spec.specs.Image.{objects};
ghost use Rattle.spec.specs.Procedures.{cut};
ghost use Rattle.laws.proofs.GoodRecords.{GoodRecords};
ghost use Rattle.check_handles.specs.Meaning.{reached_of};
ghost use Rattle.mount_spec.specs.Path.{starts_with_slash, components, root, walk, mount_point};
ghost use Rattle.mount_path.specs.Steps.{entered, InStore, Component};

use check_lookup::check_in;
use kinds::call::Part;
use kinds::numbers::{ObjectNumber, Status};
use store_records::object::is_directory;

const SLASH: u8 = b'/';

// The object of a component in object o, or NOTDIR where o is a file; an empty component is skipped.
fn enter(store: &[u8], o: ObjectNumber, call: &[u8], name: Part) -> Result<ObjectNumber, Status>
    requires good_records { GoodRecords store.now }
    requires o_bound { o.0 < objects store.now }
    requires length_in_bounds { name.start + name.length ≤ length call.now }
    ensures result_value { reached_of result ≡ entered store.now o.0 (cut call.now name) }
    ensures in_store { InStore store.now result }
{
    if name.length == 0 {
        return Ok(o);
    }
    if !is_directory(store, o) {
        return Err(Status::NOTDIR);
    }
    check_in(store, o, call, name)
}

// Where the component of a path that starts at `from` ends: at the next slash, or where the path ends.
fn component_end(call: &[u8], from: usize, end: usize) -> usize
    requires from_le_end { from ≤ end }
    requires end_in_bounds { end ≤ length call.now }
    ensures { Component call.now from end result }
{
    match call[from..end].iter().position(|x| *x == SLASH) {
        Some(n) => from + n,
        None => end,
    }
}

// The object that the components of a path lead to from the root, one after the other.
fn walk_path(store: &[u8], call: &[u8], path: Part) -> Result<ObjectNumber, Status>
    requires good_records { GoodRecords store.now }
    requires length_in_bounds { path.start + path.length ≤ length call.now }
    ensures result_value { reached_of result ≡ walk store.now root (components (cut call.now path)) }
    ensures in_store { InStore store.now result }
{
    let end = path.start + path.length;
    let mut o = ObjectNumber(0);
    let mut from = path.start;
    // No iterator: `split` of a slice gives slices, and check_in takes a part of the call.
    while from < end {
        let at = component_end(call, from, end);
        let name = Part {
            start: from,
            length: at - from,
        };
        o = enter(store, o, call, name)?;
        from = at + 1;
    }
    Ok(o)
}

// Whether a path starts with a slash.
#[tactic(auto, unfolding(mount_spec::specs::Path::starts_with_slash, spec::specs::Bytes::part))]
fn starts_with_slash(call: &[u8], path: Part) -> bool
    requires { path.start + path.length ≤ length call.now }
    ensures { result ≡ starts_with_slash (cut call.now path) }
{
    path.length != 0 && call[path.start] == SLASH
}

// The directory of a path: INVAL without a slash at its start, NOTDIR for a file at its end.
#[tactic(auto, unfolding(mount_spec::specs::Path::mount_point))]
pub fn mount_point(store: &[u8], call: &[u8], path: Part) -> Result<ObjectNumber, Status>
    requires good_records { GoodRecords store.now }
    requires length_in_bounds { path.start + path.length ≤ length call.now }
    ensures result_value { reached_of result ≡ mount_point store.now (cut call.now path) }
    ensures in_store { InStore store.now result }
{
    if !starts_with_slash(call, path) {
        return Err(Status::INVAL);
    }
    let o = walk_path(store, call, path)?;
    if !is_directory(store, o) {
        return Err(Status::NOTDIR);
    }
    Ok(o)
}
