// What REMOVE and RMDIR check, in the order that decides the status.
#![tactic(auto)]

ghost use Rattle.std.specs.Prelude.{◌≡◌, ◌+◌, ◌≤◌, length};
ghost use Rattle.spec.specs.Procedures.{cut};
ghost use Rattle.spec.specs.Procedures.Removal.{check_entry, check_remove, check_rmdir};
ghost use Rattle.laws.proofs.GoodRecords.{GoodRecords};
ghost use Rattle.check_remove.specs.Meaning.{entry_checked_of, removable_of};

use check_handles::handle::reach_directory;
use check_handles::text::{check_name, is_dots};
use check_tree::has_entries;
use kinds::call::{NameIn, Part};
use kinds::numbers::{NameNumber, ObjectNumber, Status};
use store_records::name::name_child;
use store_records::object::is_directory;
use store_search::search::find_name;

// The record of a name in a directory; "." or ".." is refused with `dots`, a name that is not there with NOENT.
#[tactic(auto, unfolding(spec::specs::Procedures::Removal::check_entry))]
fn check_entry(
    store: &[u8],
    d: ObjectNumber,
    call: &[u8],
    name: Part,
    dots: Status,
) -> Result<NameNumber, Status>
    requires good_records { GoodRecords store.now }
    requires length_in_bounds { name.start + name.length ≤ length call.now }
    ensures { entry_checked_of result ≡ check_entry store.now d.0 (cut call.now name) dots.0 }
{
    // check_new and check_added test "." and ".." so too: a function for it, with a contract, would be no shorter than the test.
    check_name(call, name)?;
    if is_dots(call, name) {
        return Err(dots);
    }
    find_name(store, d, call, name).ok_or(Status::NOENT)
}

// REMOVE: "." or "..", ACCES; a directory, ACCES. RMDIR begins with the same two calls, and tests otherwise: a function for both is no plainer.
#[tactic(auto, unfolding(spec::specs::Procedures::Removal::check_remove))]
pub fn check_remove(
    store: &[u8],
    call: &[u8],
    p: NameIn,
) -> Result<(ObjectNumber, NameNumber), Status>
    requires good_records { GoodRecords store.now }
    requires length_in_bounds { p.directory.start + p.directory.length ≤ length call.now }
    requires length_in_bounds_2 { p.name.start + p.name.length ≤ length call.now }
    ensures { removable_of result ≡ check_remove store.now (cut call.now p.directory) (cut call.now p.name) }
{
    let d = reach_directory(store, call, p.directory)?;
    let n = check_entry(store, d, call, p.name, Status::ACCES)?;
    if is_directory(store, name_child(store, n)) {
        return Err(Status::ACCES);
    }
    Ok((d, n))
}

// RMDIR: "." or "..", INVAL; a file, NOTDIR; a directory with entries, NOTEMPTY.
#[tactic(auto, unfolding(spec::specs::Procedures::Removal::check_rmdir))]
pub fn check_rmdir(
    store: &[u8],
    call: &[u8],
    p: NameIn,
) -> Result<(ObjectNumber, NameNumber), Status>
    requires good_records { GoodRecords store.now }
    requires length_in_bounds { p.directory.start + p.directory.length ≤ length call.now }
    requires length_in_bounds_2 { p.name.start + p.name.length ≤ length call.now }
    ensures { removable_of result ≡ check_rmdir store.now (cut call.now p.directory) (cut call.now p.name) }
{
    let d = reach_directory(store, call, p.directory)?;
    let n = check_entry(store, d, call, p.name, Status::INVAL)?;
    let child = name_child(store, n);
    if !is_directory(store, child) {
        return Err(Status::NOTDIR);
    }
    if has_entries(store, child) {
        return Err(Status::NOTEMPTY);
    }
    Ok((d, n))
}
