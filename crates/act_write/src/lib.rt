// What WRITE does to a file, and its reply.
#![tactic(auto)]

ghost use Rattle.std.specs.Prelude.{◌≡◌, ◌+◌, ◌<◌, ◌≤◌, min, length, take};
ghost use Rattle.kinds.specs.Numbers.{most_transfer_bytes};
ghost use Rattle.spec.specs.Bytes.{part};
ghost use Rattle.spec.specs.Image.{objects};
ghost use Rattle.spec.specs.Procedures.{cut};
ghost use Rattle.spec.specs.Procedures.Data.{write_edit, write_store, write_done};
ghost use Rattle.laws.proofs.GoodRecords.{GoodRecords, StillGood};
ghost use Rattle.store_blocks.specs.Blocks.{UsedMap};
ghost use Rattle.results.specs.Does.{Does};
ghost use Rattle.act_write.specs.MayWrite.{MayWrite, MayWriteSome};

use check_handles::failure::unchanged;
use edit_attributes::touch;
use edit_data::write_file;
use edit_size::size::resize;
use kinds::call::Part;
use kinds::numbers::{Limit, ObjectNumber};
use kinds::object::Context;
use results::{ObjectChange, Reply};
use store_attributes::before;
use store_records::object::size_of;

// What WRITE does to the store: n bytes of the call, from `start` on, at an offset of a file.
fn write_edit(
    store: &mut [u8],
    used: &[u8; Limit::MOST_BLOCKS],
    context: Context,
    o: ObjectNumber,
    offset: usize,
    call: &[u8],
    start: usize,
    n: usize,
)
    requires good_records { GoodRecords store.old }
    requires used_map { UsedMap store.old used.now }
    requires may_write { MayWrite store.old o.0 offset n }
    requires n_in_bounds { start + n ≤ length call.now }
    ensures { store.new ≡ write_edit store.old context o.0 offset (part call.now start n) }
{
    let old = size_of(store, o) as usize;
    resize(store, used, o, wire::larger(old, offset + n));
    write_file(store, o, offset, call, start, n);
    touch(store, context.clock, o);
}

// Writes bytes of the call at an offset of a file that the checks passed: the file as it was and as it is, the bytes written and the verifier.
pub fn write_checked(
    store: &mut [u8],
    used: &[u8; Limit::MOST_BLOCKS],
    context: Context,
    o: ObjectNumber,
    offset: u64,
    call: &[u8],
    count: u32,
    bytes: Part,
) -> Reply
    requires good_records { GoodRecords store.old }
    requires used_map { UsedMap store.old used.now }
    requires o_bound { o.0 < objects store.old }
    requires may_write_some { MayWriteSome store.old o.0 offset count }
    requires length_in_bounds { bytes.start + bytes.length ≤ length call.now }
    requires most_transfer_bytes_bound { min count most_transfer_bytes ≤ bytes.length }
    requires still_good { StillGood store.old (write_store store.old context o.0 offset (take (min count most_transfer_bytes) (cut call.now bytes))) }
    ensures { Does (write_done store.old context o.0 offset (take (min count most_transfer_bytes) (cut call.now bytes))) result store.new }
{
    let wanted = count as usize;
    let n = wire::smaller(wanted, Limit::MOST_TRANSFER_BYTES);
    if n == 0 {
        return Reply::Wrote(unchanged(store, o), 0, context.verifier);
    }
    let earlier = before(store, o);
    write_edit(
        store,
        used,
        context,
        o,
        offset as usize,
        call,
        bytes.start,
        n,
    );
    let written = n as u32;
    let change = ObjectChange {
        before: earlier,
        object: o,
    };
    Reply::Wrote(change, written, context.verifier)
}
