// GETATTR and ACCESS.
ghost use Rattle.std.specs.Prelude.{◌≡◌, ◌+◌, ◌≤◌, ◌<◌, length};
ghost use Rattle.spec.specs.Image.{objects};
ghost use Rattle.spec.specs.Procedures.{cut};
ghost use Rattle.spec.specs.Procedures.Attributes.{getattr, granted_bits, access};
ghost use Rattle.laws.proofs.GoodRecords.{GoodRecords};
ghost use Rattle.results.specs.Meaning.{result_of};
ghost use Rattle.results.specs.Writable.{Writable};

use check_handles::failure::fail_showing;
use check_handles::handle::reach;
use kinds::call::Part;
use kinds::numbers::{Limit, ObjectNumber};
use results::Reply;
use store_records::object::is_directory;

#[tactic(auto, unfolding(spec::specs::Procedures::Attributes::getattr))]
pub fn getattr(store: &[u8], call: &[u8], h: Part) -> Reply
    requires good_records { GoodRecords store.now }
    requires length_in_bounds { h.start + h.length ≤ length call.now }
    ensures result_value { result_of store.now result ≡ (getattr store.now (cut call.now h)).result }
    ensures writable { Writable store.now result }
{
    match reach(store, call, h) {
        Ok(o) => Reply::GotAttributes(o),
        Err(status) => Reply::Dead(status),
    }
}

// The bits of the request that a file, or a directory, grants.
#[tactic(auto, unfolding(spec::specs::Procedures::Attributes::granted_bits))]
fn granted_bits(store: &[u8], o: ObjectNumber, bits: u32) -> u32
    requires good_records { GoodRecords store.now }
    requires o_bound { o.0 < objects store.now }
    ensures { result ≡ granted_bits store.now o.0 bits }
{
    let rights = if is_directory(store, o) {
        Limit::DIRECTORY_RIGHTS
    } else {
        Limit::FILE_RIGHTS
    };
    bits & rights
}

#[tactic(auto, unfolding(spec::specs::Procedures::Attributes::access))]
pub fn access(store: &[u8], call: &[u8], h: Part, bits: u32) -> Reply
    requires good_records { GoodRecords store.now }
    requires length_in_bounds { h.start + h.length ≤ length call.now }
    ensures result_value { result_of store.now result ≡ (access store.now (cut call.now h) bits).result }
    ensures writable { Writable store.now result }
{
    match reach(store, call, h) {
        Ok(o) => Reply::Granted(o, granted_bits(store, o, bits)),
        Err(status) => fail_showing(store, call, h, status),
    }
}
