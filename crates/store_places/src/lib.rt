// Where records and blocks start, by the counts of a store, and how many blocks a size needs.
#![tactic(auto)]

ghost use Rattle.std.specs.Prelude.{◌≡◌, ◌+◌, ◌*◌, ◌≤◌, ◌<◌};
ghost use Rattle.kinds.specs.Layout.{names_head, blocks_head, object_length, name_record_length, block_length};
ghost use Rattle.kinds.specs.Numbers.{most_file_bytes};
ghost use Rattle.spec.specs.Image.{object_start};
ghost use Rattle.spec.specs.Room.{need};

use kinds::layout::{Block, Image, NameRecord, ObjectRecord};
use kinds::numbers::{BlockNumber, NameNumber, ObjectNumber};

// Where an object record starts.
pub fn object_place(o: ObjectNumber) -> usize
    requires { object_start o.0 < 18446744073709551616 }
    ensures { result ≡ object_start o.0 }
{
    let i = o.0;
    Image::OBJECTS_HEAD + ObjectRecord::BYTES * i
}

// Where a name record starts, after p object records.
pub fn name_place(p: usize, n: NameNumber) -> usize
    requires { names_head + object_length * p + name_record_length * n.0 < 18446744073709551616 }
    ensures { result ≡ names_head + object_length * p + name_record_length * n.0 }
{
    let i = n.0;
    Image::NAMES_HEAD + ObjectRecord::BYTES * p + NameRecord::BYTES * i
}

// Where a block starts, after p object records and q name records.
pub fn block_place(p: usize, q: usize, r: BlockNumber) -> usize
    requires { blocks_head + object_length * p + name_record_length * q + block_length * r.0 < 18446744073709551616 }
    ensures { result ≡ blocks_head + object_length * p + name_record_length * q + block_length * r.0 }
{
    let i = r.0 as usize;
    Image::BLOCKS_HEAD + ObjectRecord::BYTES * p + NameRecord::BYTES * q + Block::BYTES * i
}

// How many blocks a size needs.
pub fn need(size: usize) -> usize
    requires { size ≤ most_file_bytes }
    ensures { result ≡ need size }
{
    (size + Block::BYTES - 1) / Block::BYTES
}
