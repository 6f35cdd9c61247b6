// What LINK checks, in the order that decides the status.
#![tactic(auto)]

ghost use Rattle.std.specs.Prelude.{◌≡◌, ◌+◌, ◌≤◌, length};
ghost use Rattle.spec.specs.Procedures.{cut};
ghost use Rattle.spec.specs.Procedures.Link.{check_added, check_link};
ghost use Rattle.laws.proofs.GoodRecords.{GoodRecords};
ghost use Rattle.check_remove.specs.Meaning.{entry_checked_of};
ghost use Rattle.check_link.specs.Meaning.{linkable_of};

use check_handles::handle::{reach, reach_directory};
use check_handles::text::{check_name, is_dots};
use kinds::call::{NameIn, Part};
use kinds::numbers::{Limit, NameNumber, ObjectNumber, Status};
use store_records::object::is_directory;
use store_search::name::{find_free_name, naming_count};
use store_search::search::find_name;

// The file, the directory and the free name record of a name that may be added.
#[derive(Clone, Copy)]
pub struct Linkable {
    pub file: ObjectNumber,
    pub directory: ObjectNumber,
    pub name: NameNumber,
}

// A name of file `o` in directory `d`: "." or "..", EXIST; a name that is there, EXIST; 16 names already, MLINK; no free name record, NOSPC.
#[tactic(auto, unfolding(spec::specs::Procedures::Link::check_added))]
fn check_added(
    store: &[u8],
    call: &[u8],
    o: ObjectNumber,
    d: ObjectNumber,
    name: Part,
) -> Result<NameNumber, Status>
    requires good_records { GoodRecords store.now }
    requires length_in_bounds { name.start + name.length ≤ length call.now }
    ensures { entry_checked_of result ≡ check_added store.now o.0 d.0 (cut call.now name) }
{
    check_name(call, name)?;
    if is_dots(call, name) || find_name(store, d, call, name).is_some() {
        return Err(Status::EXIST);
    }
    if naming_count(store, o) >= Limit::MOST_LINKS as usize {
        return Err(Status::MLINK);
    }
    find_free_name(store).ok_or(Status::NOSPC)
}

// LINK: the file, which is no directory, INVAL; the directory; then the name.
#[tactic(auto, unfolding(spec::specs::Procedures::Link::check_link))]
pub fn check_link(store: &[u8], call: &[u8], file: Part, p: NameIn) -> Result<Linkable, Status>
    requires good_records { GoodRecords store.now }
    requires length_in_bounds { file.start + file.length ≤ length call.now }
    requires length_in_bounds_2 { p.directory.start + p.directory.length ≤ length call.now }
    requires length_in_bounds_3 { p.name.start + p.name.length ≤ length call.now }
    ensures { linkable_of result ≡ check_link store.now (cut call.now file) (cut call.now p.directory) (cut call.now p.name) }
{
    let file = reach(store, call, file)?;
    if is_directory(store, file) {
        return Err(Status::INVAL);
    }
    let directory = reach_directory(store, call, p.directory)?;
    let name = check_added(store, call, file, directory, p.name)?;
    Ok(Linkable {
        file,
        directory,
        name,
    })
}
