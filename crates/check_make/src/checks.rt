// The checks of MKDIR, and those of CREATE that look for the name.
ghost use Rattle.std.specs.Prelude.{◌≡◌, ◌||◌, ◌+◌, ◌<◌, ◌≤◌, length};
ghost use Rattle.kinds.specs.Numbers.{most_file_bytes};
ghost use Rattle.spec.specs.Image.{objects};
ghost use Rattle.spec.specs.Room.{find_name};
ghost use Rattle.spec.specs.Procedures.{cut};
ghost use Rattle.spec.specs.Procedures.Attributes.{is_given, size_set, bad_attributes};
ghost use Rattle.spec.specs.Procedures.Names.{settable_in, is_made_by, is_taken, check_existing, target_of, check_new, check_mkdir};
ghost use Rattle.laws.proofs.GoodRecords.{GoodRecords};
ghost use Rattle.store_blocks.specs.Blocks.{UsedMap};
ghost use Rattle.check_handles.specs.Meaning.{text_checked_of};
ghost use Rattle.check_make.specs.Meaning.{target_checked_of, mkdir_checked_of};

use check_handles::handle::reach_directory;
use check_handles::text::{check_name, is_dots};
use check_room::{lacks_room_for_size, room_for_new};
use check_settable::{bad_attributes, is_given, settable_in, size_set};
use kinds::call::{How, NameIn, Part, Settable};
use kinds::numbers::{Limit, NameNumber, ObjectNumber, Status};
use store_records::name::name_child;
use store_records::object::{exclusive_of, is_regular, verifier_of};
use store_search::search::find_name;

// What CREATE's checks find: records for a new file, or the file of that name.
#[derive(Clone, Copy)]
pub enum Target {
    New(ObjectNumber, NameNumber),
    Existing(ObjectNumber),
}

// Where MKDIR makes a directory: the directory that it is in, its object record and its name record.
#[derive(Clone, Copy)]
pub struct NewPlace {
    pub directory: ObjectNumber,
    pub object: ObjectNumber,
    pub name: NameNumber,
}

// A name to be made: a bad name's status, EXIST for "." and "..", then INVAL for attributes that are not valid.
#[tactic(auto, unfolding(spec::specs::Procedures::Names::check_new))]
pub fn check_new(call: &[u8], name: Part, invalid: bool) -> Result<(), Status>
    requires { name.start + name.length ≤ length call.now }
    ensures { text_checked_of result ≡ check_new (cut call.now name) invalid }
{
    check_name(call, name)?;
    if is_dots(call, name) {
        return Err(Status::EXIST);
    }
    if invalid {
        return Err(Status::INVAL);
    }
    Ok(())
}

// Whether an object is a file that was made EXCLUSIVE with this verifier, and keeps it.
#[tactic(auto, unfolding(spec::specs::Procedures::Names::is_made_by))]
fn is_made_by(store: &[u8], verifier: u64, o: ObjectNumber) -> bool
    requires good_records { GoodRecords store.now }
    requires o_bound { o.0 < objects store.now }
    ensures { result ≡ is_made_by store.now verifier o.0 }
{
    is_regular(store, o)
        && exclusive_of(store, o) == Limit::KEPT_FLAG
        && verifier_of(store, o) == verifier
}

// Whether CREATE takes the object that has the name.
fn is_taken(store: &[u8], manner: How, o: ObjectNumber) -> bool
    requires good_records { GoodRecords store.now }
    requires o_bound { o.0 < objects store.now }
    ensures { result ≡ is_taken store.now manner o.0 }
{
    match manner {
        How::Unchecked(_) => is_regular(store, o),
        How::Guarded(_) => false,
        How::Exclusive(verifier) => is_made_by(store, verifier, o),
    }
}

// An object that has the name: EXIST, unless it is taken, which obeys a size.
#[tactic(auto, unfolding(spec::specs::Procedures::Names::check_existing))]
fn check_existing(
    store: &[u8],
    used: &[u8; Limit::MOST_BLOCKS],
    manner: How,
    o: ObjectNumber,
) -> Result<Target, Status>
    requires good_records { GoodRecords store.now }
    requires used_map { UsedMap store.now used.now }
    requires size_bound { size_set (settable_in manner).size 0 ≤ most_file_bytes }
    requires o_bound { o.0 < objects store.now }
    ensures { target_checked_of result ≡ check_existing store.now manner o.0 }
{
    if !is_taken(store, manner, o) {
        return Err(Status::EXIST);
    }
    if lacks_room_for_size(store, used, o, settable_in(manner).size) {
        return Err(Status::NOSPC);
    }
    Ok(Target::Existing(o))
}

// The file that CREATE makes, or the one that has the name.
pub fn check_target(
    store: &[u8],
    used: &[u8; Limit::MOST_BLOCKS],
    d: ObjectNumber,
    call: &[u8],
    name: Part,
    manner: How,
) -> Result<Target, Status>
    requires good_records { GoodRecords store.now }
    requires used_map { UsedMap store.now used.now }
    requires length_in_bounds { name.start + name.length ≤ length call.now }
    requires size_bound { size_set (settable_in manner).size 0 ≤ most_file_bytes }
    ensures { target_checked_of result ≡ target_of store.now manner (find_name store.now d.0 (cut call.now name)) }
{
    let Some(n) = find_name(store, d, call, name) else {
        let size = size_set(settable_in(manner).size, 0) as usize;
        let (o, n) = room_for_new(store, used, size)?;
        return Ok(Target::New(o, n));
    };
    check_existing(store, used, manner, name_child(store, n))
}

// Whether MKDIR's attributes are not valid: as for SETATTR, or a size is given.
fn bad_for_directory(a: Settable) -> bool
    ensures { result ≡ bad_attributes a || is_given a.size }
{
    bad_attributes(a) || is_given(a.size)
}

// The directory, the object record and the name record of MKDIR, or the status.
#[tactic(auto, unfolding(spec::specs::Procedures::Names::check_mkdir))]
pub fn check_mkdir(
    store: &[u8],
    used: &[u8; Limit::MOST_BLOCKS],
    call: &[u8],
    place: NameIn,
    a: Settable,
) -> Result<NewPlace, Status>
    requires good_records { GoodRecords store.now }
    requires used_map { UsedMap store.now used.now }
    requires length_in_bounds { place.directory.start + place.directory.length ≤ length call.now }
    requires length_in_bounds_2 { place.name.start + place.name.length ≤ length call.now }
    ensures { mkdir_checked_of result ≡ check_mkdir store.now (cut call.now place.directory) (cut call.now place.name) a }
{
    let directory = reach_directory(store, call, place.directory)?;
    check_new(call, place.name, bad_for_directory(a))?;
    if find_name(store, directory, call, place.name).is_some() {
        return Err(Status::EXIST);
    }
    let (object, name) = room_for_new(store, used, 0)?;
    Ok(NewPlace {
        directory,
        object,
        name,
    })
}
