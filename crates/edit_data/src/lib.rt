// The blocks and the bytes of a file: zeroed, and written.
#![tactic(auto)]

ghost use Rattle.std.specs.Prelude.{◌≡◌, ◌+◌, ◌-◌, ◌≤◌, ◌<◌, length};
ghost use Rattle.kinds.specs.BlockNumbers.{numbers_of};
ghost use Rattle.kinds.specs.Numbers.{REGULAR, file_blocks};
ghost use Rattle.spec.specs.Bytes.{part};
ghost use Rattle.spec.specs.Image.{objects, blocks, object_at};
ghost use Rattle.spec.specs.Room.{size_of};
ghost use Rattle.spec.specs.Edits.{clear_blocks, clear_tail, write_file};
ghost use Rattle.laws.proofs.BlockLists.{InRange};
ghost use Rattle.laws.proofs.GoodRecords.{GoodRecords};
ghost use Rattle.laws.proofs.Kept.{Sound};
ghost use Rattle.laws.proofs.Valid.{Live};

use kinds::layout::Block;
use kinds::numbers::{BlockNumber, ObjectNumber};
use store_records::block::{byte_at, clear_block};

// Zeroes the blocks from place `start` to place `end` of a list.
pub fn clear_blocks(store: &mut [u8], list: [BlockNumber; 16], start: usize, end: usize)
    requires sound { Sound store.old }
    requires start_le_end { start ≤ end }
    requires end_le_file_blocks { end ≤ file_blocks }
    requires in_range { InRange (blocks store.old) (part (numbers_of list) start (end - start)) }
    ensures { store.new ≡ clear_blocks store.old (part (numbers_of list) start (end - start)) }
{
    for k in start..end {
        clear_block(store, list[k]);
    }
}

// Zeroes a file's bytes from `start` to `end`, as far as they lie in a block that has bytes before `start`.
pub fn clear_tail(store: &mut [u8], o: ObjectNumber, start: usize, end: usize)
    requires good_records { GoodRecords store.old }
    requires o_bound { o.0 < objects store.old }
    requires o_value { (object_at store.old o.0).kind ≡ REGULAR }
    requires start_bound { start ≤ size_of store.old o.0 }
    requires start_le_end { start ≤ end }
    ensures { store.new ≡ clear_tail store.old o.0 start end }
{
    let inside = start % Block::BYTES;
    if inside == 0 {
        return;
    }
    let at = byte_at(store, o, start);
    let rest = Block::BYTES - inside;
    let asked = end - start;
    if asked < rest {
        wire::clear_bytes(store, at, asked);
        return;
    }
    wire::clear_bytes(store, at, rest);
}

// Writes bytes of the call at an offset of a file, all within its size, block by block.
pub fn write_file(
    store: &mut [u8],
    o: ObjectNumber,
    offset: usize,
    call: &[u8],
    start: usize,
    n: usize,
)
    requires good_records { GoodRecords store.old }
    requires o_bound { o.0 < objects store.old }
    requires live { Live store.old o.0 }
    requires n_bound { offset + n ≤ size_of store.old o.0 }
    requires n_in_bounds { start + n ≤ length call.now }
    ensures { store.new ≡ write_file store.old o.0 offset (part call.now start n) }
{
    // A step ends where its block or the bytes end, so that no range has these steps.
    let mut done = 0;
    while done < n {
        let i = offset + done;
        let chunk = wire::smaller(Block::BYTES - i % Block::BYTES, n - done);
        let at = byte_at(store, o, i);
        wire::copy_bytes(store, at, call, start + done, chunk);
        done += chunk;
    }
}
