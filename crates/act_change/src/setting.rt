// The checks of SETATTR and WRITE.
ghost use Rattle.std.specs.Prelude.{◌≡◌, ◌&&◌, ◌+◌, ◌<◌, ◌≤◌, length};
ghost use Rattle.spec.specs.Image.{objects};
ghost use Rattle.spec.specs.Room.{is_directory};
ghost use Rattle.spec.specs.Procedures.{cut};
ghost use Rattle.spec.specs.Procedures.Attributes.{is_given, check_setattr};
ghost use Rattle.spec.specs.Procedures.Data.{check_write};
ghost use Rattle.laws.proofs.GoodRecords.{GoodRecords};
ghost use Rattle.store_blocks.specs.Blocks.{UsedMap};
ghost use Rattle.check_handles.specs.Meaning.{reached_of};

use check_handles::handle::{reach, reach_regular};
use check_room::{is_past_end, lacks_room_for_bytes, lacks_room_for_size};
use check_settable::{bad_attributes, differs, is_given};
use kinds::call::{Part, Settable};
use kinds::numbers::{Limit, ObjectNumber, Status};
use kinds::object::Time;
use store_records::object::{ctime_of, is_directory};

// Whether a size is given for a directory.
fn sizes_directory(store: &[u8], o: ObjectNumber, size: Option<u64>) -> bool
    requires good_records { GoodRecords store.now }
    requires o_bound { o.0 < objects store.now }
    ensures { result ≡ is_given size && is_directory store.now o.0 }
{
    is_given(size) && is_directory(store, o)
}

// The object that SETATTR may change, or the status.
#[tactic(auto, unfolding(spec::specs::Procedures::Attributes::check_setattr))]
pub fn check_setattr(
    store: &[u8],
    used: &[u8; Limit::MOST_BLOCKS],
    call: &[u8],
    h: Part,
    a: Settable,
    g: Option<Time>,
) -> Result<ObjectNumber, Status>
    requires good_records { GoodRecords store.now }
    requires used_map { UsedMap store.now used.now }
    requires length_in_bounds { h.start + h.length ≤ length call.now }
    ensures { reached_of result ≡ check_setattr store.now (cut call.now h) a g }
{
    let o = reach(store, call, h)?;
    if differs(g, ctime_of(store, o)) {
        return Err(Status::NOT_SYNC);
    }
    if bad_attributes(a) || sizes_directory(store, o, a.size) {
        return Err(Status::INVAL);
    }
    if lacks_room_for_size(store, used, o, a.size) {
        return Err(Status::NOSPC);
    }
    Ok(o)
}

// The file that WRITE may change, or the status. The map says which blocks are used.
#[tactic(auto, unfolding(spec::specs::Procedures::Data::check_write))]
pub fn check_write(
    store: &[u8],
    used: &[u8; Limit::MOST_BLOCKS],
    call: &[u8],
    h: Part,
    offset: u64,
    count: u32,
    bytes: Part,
) -> Result<ObjectNumber, Status>
    requires good_records { GoodRecords store.now }
    requires used_map { UsedMap store.now used.now }
    requires length_in_bounds { h.start + h.length ≤ length call.now }
    requires length_in_bounds_2 { bytes.start + bytes.length ≤ length call.now }
    ensures { reached_of result ≡ check_write store.now (cut call.now h) offset count (cut call.now bytes) }
{
    let o = reach_regular(store, call, h)?;
    let wanted = count as usize;
    if wanted != bytes.length {
        return Err(Status::INVAL);
    }
    if wanted == 0 {
        return Ok(o);
    }
    let n = wire::smaller(wanted, Limit::MOST_TRANSFER_BYTES);
    if is_past_end(offset, n) {
        return Err(Status::FBIG);
    }
    if lacks_room_for_bytes(store, used, o, offset as usize, n) {
        return Err(Status::NOSPC);
    }
    Ok(o)
}
