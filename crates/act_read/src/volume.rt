// FSSTAT, FSINFO and PATHCONF.
ghost use Rattle.std.specs.Prelude.{◌≡◌, ◌+◌, ◌≤◌, ◌<◌, length};
ghost use Rattle.spec.specs.Image.{objects};
ghost use Rattle.spec.specs.Procedures.{cut};
ghost use Rattle.spec.specs.Procedures.Volume.{room_result, fsstat, fsinfo, pathconf};
ghost use Rattle.laws.proofs.GoodRecords.{GoodRecords};
ghost use Rattle.store_blocks.specs.Blocks.{UsedMap};
ghost use Rattle.results.specs.Meaning.{result_of};
ghost use Rattle.results.specs.Writable.{Writable};

use check_handles::failure::fail_showing;
use check_handles::handle::reach;
use kinds::call::Part;
use kinds::layout::Block;
use kinds::numbers::{Limit, ObjectNumber};
use results::Reply;
use store_blocks::free_block_count;
use store_records::counts::{block_count, object_count};
use store_search::object::available_count;

// The room of a store. The map says which blocks are used.
#[tactic(auto, using(crate::proofs::Few::free_few, crate::proofs::Few::available_few))]
fn room(store: &[u8], used: &[u8; Limit::MOST_BLOCKS], o: ObjectNumber) -> Reply
    requires good_records { GoodRecords store.now }
    requires o_bound { o.0 < objects store.now }
    requires used_map { UsedMap store.now used.now }
    ensures result_value { result_of store.now result ≡ room_result store.now o.0 }
    ensures writable { Writable store.now result }
{
    let total = Block::BYTES * block_count(store);
    let unused = Block::BYTES * free_block_count(store, used);
    let all = object_count(store);
    let available = available_count(store);
    Reply::GotRoom(o, total as u32, unused as u32, all as u32, available as u32)
}

#[tactic(auto, unfolding(spec::specs::Procedures::Volume::fsstat))]
pub fn fsstat(store: &[u8], used: &[u8; Limit::MOST_BLOCKS], call: &[u8], h: Part) -> Reply
    requires good_records { GoodRecords store.now }
    requires length_in_bounds { h.start + h.length ≤ length call.now }
    requires used_map { UsedMap store.now used.now }
    ensures result_value { result_of store.now result ≡ (fsstat store.now (cut call.now h)).result }
    ensures writable { Writable store.now result }
{
    match reach(store, call, h) {
        Ok(o) => room(store, used, o),
        Err(status) => fail_showing(store, call, h, status),
    }
}

#[tactic(auto, unfolding(spec::specs::Procedures::Volume::fsinfo))]
pub fn fsinfo(store: &[u8], call: &[u8], h: Part) -> Reply
    requires good_records { GoodRecords store.now }
    requires length_in_bounds { h.start + h.length ≤ length call.now }
    ensures result_value { result_of store.now result ≡ (fsinfo store.now (cut call.now h)).result }
    ensures writable { Writable store.now result }
{
    match reach(store, call, h) {
        Ok(o) => Reply::GotLimits(o),
        Err(status) => fail_showing(store, call, h, status),
    }
}

// Not one function with fsinfo: only the match is shared, as with every procedure that shows an object.
#[tactic(auto, unfolding(spec::specs::Procedures::Volume::pathconf))]
pub fn pathconf(store: &[u8], call: &[u8], h: Part) -> Reply
    requires good_records { GoodRecords store.now }
    requires length_in_bounds { h.start + h.length ≤ length call.now }
    ensures result_value { result_of store.now result ≡ (pathconf store.now (cut call.now h)).result }
    ensures writable { Writable store.now result }
{
    match reach(store, call, h) {
        Ok(o) => Reply::GotNaming(o),
        Err(status) => fail_showing(store, call, h, status),
    }
}
