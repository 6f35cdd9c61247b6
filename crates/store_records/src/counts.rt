// The counts and the stamp of a store, and where its records and blocks start.
ghost use Rattle.std.specs.Prelude.{◌≡◌, ◌+◌, ◌≤◌, length};
ghost use Rattle.kinds.specs.Layout.{object_count_offset, objects_head, object_length, name_record_length};
ghost use Rattle.spec.specs.Image.{stamp, objects, names, blocks, object_start, name_start, block_start};

use kinds::layout::{Image, NameRecord, ObjectRecord};
use kinds::numbers::{BlockNumber, NameNumber, ObjectNumber};
use store_places::{block_place, name_place, object_place};

pub fn stamp_of(store: &[u8]) -> u32
    requires { object_count_offset ≤ length store.now }
    ensures { result ≡ stamp store.now }
{
    wire::get_u32(store, Image::STAMP)
}

pub fn object_count(store: &[u8]) -> usize
    requires { objects_head ≤ length store.now }
    ensures { result ≡ objects store.now }
{
    wire::get_u32(store, Image::OBJECT_COUNT) as usize
}

pub fn name_count(store: &[u8]) -> usize
    requires { object_start (objects store.now) + 4 ≤ length store.now }
    ensures { result ≡ names store.now }
{
    let p = object_count(store);
    wire::get_u32(store, Image::OBJECTS_HEAD + ObjectRecord::BYTES * p) as usize
}

pub fn block_count(store: &[u8]) -> usize
    requires { name_start store.now (names store.now) + 4 ≤ length store.now }
    ensures { result ≡ blocks store.now }
{
    let p = object_count(store);
    let q = name_count(store);
    wire::get_u32(
        store,
        Image::NAMES_HEAD + ObjectRecord::BYTES * p + NameRecord::BYTES * q,
    ) as usize
}

// Where an object record starts; its bytes lie in the store.
pub fn object_start(store: &[u8], o: ObjectNumber) -> usize
    requires { object_start o.0 + object_length ≤ length store.now }
    ensures { result ≡ object_start o.0 }
{
    object_place(o)
}

// Where a name record starts; its bytes lie in the store.
pub fn name_start(store: &[u8], n: NameNumber) -> usize
    requires { name_start store.now n.0 + name_record_length ≤ length store.now }
    ensures { result ≡ name_start store.now n.0 }
{
    let p = object_count(store);
    name_place(p, n)
}

// Where the name records start.
pub fn names_start(store: &[u8]) -> usize
    requires { object_start (objects store.now) + 4 ≤ length store.now }
    ensures { result ≡ name_start store.now 0 }
{
    let p = object_count(store);
    name_place(p, NameNumber(0))
}

// Where a block starts; it starts in the store, or at its end.
pub fn block_start(store: &[u8], r: BlockNumber) -> usize
    requires { block_start store.now r.0 ≤ length store.now }
    ensures { result ≡ block_start store.now r.0 }
{
    let p = object_count(store);
    let q = name_count(store);
    block_place(p, q, r)
}
