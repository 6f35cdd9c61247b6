// Blocks: where the bytes of a file lie, and a block made zero.
ghost use Rattle.std.specs.Prelude.{◌≡◌, ◌+◌, ◌<◌, ◌≤◌, length};
ghost use Rattle.kinds.specs.Layout.{object_length, block_length};
ghost use Rattle.kinds.specs.Numbers.{most_file_bytes};
ghost use Rattle.spec.specs.Bytes.{overlay, zeros};
ghost use Rattle.spec.specs.Image.{object_start, block_start};
ghost use Rattle.spec.specs.Room.{byte_at};

use crate::counts::block_start;
use crate::object::block_of;
use kinds::layout::Block;
use kinds::numbers::{BlockNumber, ObjectNumber};

// Where byte i of an object's file lies; it lies in the store.
pub fn byte_at(store: &[u8], o: ObjectNumber, i: usize) -> usize
    requires object_length_in_bounds { object_start o.0 + object_length ≤ length store.now }
    requires i_lt_most_file_bytes { i < most_file_bytes }
    requires i_in_bounds { byte_at store.now o.0 i < length store.now }
    ensures { result ≡ byte_at store.now o.0 i }
{
    let r = block_of(store, o, i / Block::BYTES);
    block_start(store, r) + i % Block::BYTES
}

// Makes a block zero.
pub fn clear_block(store: &mut [u8], r: BlockNumber)
    requires { block_start store.old r.0 + block_length ≤ length store.old }
    ensures { store.new ≡ overlay store.old (block_start store.old r.0) (zeros block_length) }
{
    let at = block_start(store, r);
    wire::clear_bytes(store, at, Block::BYTES);
}
