// LOOKUP.
ghost use Rattle.std.specs.Prelude.{◌≡◌, ◌+◌, ◌≤◌, length};
ghost use Rattle.spec.specs.Procedures.{cut};
ghost use Rattle.spec.specs.Procedures.Names.{check_lookup, lookup};
ghost use Rattle.laws.proofs.GoodRecords.{GoodRecords};
ghost use Rattle.check_handles.specs.Meaning.{reached_of};
ghost use Rattle.results.specs.Meaning.{result_of};
ghost use Rattle.results.specs.Writable.{Writable};
ghost use Rattle.act_read.specs.Meaning.{looked_of};

use check_handles::failure::fail_showing;
use check_handles::handle::reach_directory;
use check_lookup::check_in;
use kinds::call::NameIn;
use kinds::numbers::{ObjectNumber, Status};
use results::Reply;

// A directory and the object that was found in it.
#[derive(Clone, Copy)]
pub struct Looked {
    pub directory: ObjectNumber,
    pub object: ObjectNumber,
}

#[tactic(auto, unfolding(spec::specs::Procedures::Names::check_lookup))]
fn check_lookup(store: &[u8], call: &[u8], p: NameIn) -> Result<Looked, Status>
    requires good_records { GoodRecords store.now }
    requires length_in_bounds { p.directory.start + p.directory.length ≤ length call.now }
    requires length_in_bounds_2 { p.name.start + p.name.length ≤ length call.now }
    ensures { looked_of result ≡ check_lookup store.now (cut call.now p.directory) (cut call.now p.name) }
{
    let directory = reach_directory(store, call, p.directory)?;
    let object = check_in(store, directory, call, p.name)?;
    Ok(Looked { directory, object })
}

#[tactic(auto, unfolding(spec::specs::Procedures::Names::lookup))]
pub fn lookup(store: &[u8], call: &[u8], p: NameIn) -> Reply
    requires good_records { GoodRecords store.now }
    requires length_in_bounds { p.directory.start + p.directory.length ≤ length call.now }
    requires length_in_bounds_2 { p.name.start + p.name.length ≤ length call.now }
    ensures result_value { result_of store.now result ≡ (lookup store.now (cut call.now p.directory) (cut call.now p.name)).result }
    ensures writable { Writable store.now result }
{
    match check_lookup(store, call, p) {
        Ok(looked) => Reply::Found(looked.object, looked.directory),
        Err(status) => fail_showing(store, call, p.directory, status),
    }
}
