// READ and COMMIT.
ghost use Rattle.std.specs.Prelude.{◌≡◌, ◌+◌, ◌≤◌, ◌<◌, length};
ghost use Rattle.spec.specs.Image.{objects};
ghost use Rattle.spec.specs.Procedures.{cut};
ghost use Rattle.spec.specs.Procedures.Data.{read_length, read_result, read, commit};
ghost use Rattle.laws.proofs.GoodRecords.{GoodRecords};
ghost use Rattle.results.specs.Meaning.{result_of};
ghost use Rattle.results.specs.Writable.{Writable};

use check_handles::failure::{fail_changing, fail_showing, unchanged};
use check_handles::handle::reach_regular;
use kinds::call::Part;
use kinds::numbers::{Limit, ObjectNumber};
use kinds::object::Context;
use results::Reply;
use store_records::object::size_of;

// How many bytes a read gives: those that are asked for, up to the most that one READ moves and to the end of the file.
#[tactic(auto, unfolding(spec::specs::Procedures::Data::read_length))]
fn read_length(store: &[u8], o: ObjectNumber, offset: u64, count: u32) -> usize
    requires good_records { GoodRecords store.now }
    requires o_bound { o.0 < objects store.now }
    ensures { result ≡ read_length store.now o.0 offset count }
{
    let size = size_of(store, o) as u64;
    if size <= offset {
        return 0;
    }
    let most = wire::smaller(count as usize, Limit::MOST_TRANSFER_BYTES);
    wire::smaller(most, (size - offset) as usize)
}

#[tactic(auto, unfolding(spec::specs::Procedures::Data::read_result))]
fn read_result(store: &[u8], o: ObjectNumber, offset: u64, count: u32) -> Reply
    requires good_records { GoodRecords store.now }
    requires o_bound { o.0 < objects store.now }
    ensures result_value { result_of store.now result ≡ read_result store.now o.0 offset count }
    ensures writable { Writable store.now result }
{
    let n = read_length(store, o, offset, count);
    let size = size_of(store, o) as u64;
    let eof = size <= offset + n as u64;
    Reply::GotBytes(o, eof, offset as usize, n)
}

#[tactic(auto, unfolding(spec::specs::Procedures::Data::read))]
pub fn read(store: &[u8], call: &[u8], h: Part, offset: u64, count: u32) -> Reply
    requires good_records { GoodRecords store.now }
    requires length_in_bounds { h.start + h.length ≤ length call.now }
    ensures result_value { result_of store.now result ≡ (read store.now (cut call.now h) offset count).result }
    ensures writable { Writable store.now result }
{
    match reach_regular(store, call, h) {
        Ok(o) => read_result(store, o, offset, count),
        Err(status) => fail_showing(store, call, h, status),
    }
}

#[tactic(auto, unfolding(spec::specs::Procedures::Data::commit, spec::specs::Handles::change))]
pub fn commit(store: &[u8], call: &[u8], h: Part, context: Context) -> Reply
    requires good_records { GoodRecords store.now }
    requires length_in_bounds { h.start + h.length ≤ length call.now }
    ensures result_value { result_of store.now result ≡ (commit store.now context (cut call.now h)).result }
    ensures writable { Writable store.now result }
{
    match reach_regular(store, call, h) {
        Ok(o) => Reply::Committed(unchanged(store, o), context.verifier),
        Err(status) => fail_changing(store, call, h, status),
    }
}
