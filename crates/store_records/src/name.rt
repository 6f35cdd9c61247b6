// Name records: single fields of one, and one written or freed.
ghost use Rattle.std.specs.Prelude.{◌≡◌, ◌+◌, ◌<◌, ◌≤◌, length};
ghost use Rattle.kinds.specs.Layout.{name_record_length};
ghost use Rattle.kinds.specs.Numbers.{most_name_bytes};
ghost use Rattle.spec.specs.Image.{name_start, name_at, name_length, put_name, free_name};
ghost use Rattle.spec.specs.Room.{is_used_name};
ghost use Rattle.store_records.specs.Text.{name_of, text_of};

use crate::counts::name_start;
use kinds::call::Part;
use kinds::layout::NameRecord;
use kinds::numbers::{Limit, NameNumber, ObjectNumber};

// The directory that a record's name is in.
pub fn name_directory(store: &[u8], n: NameNumber) -> ObjectNumber
    requires { name_start store.now n.0 + name_record_length ≤ length store.now }
    ensures { result.0 ≡ (name_at store.now n.0).directory }
{
    let at = name_start(store, n);
    ObjectNumber(wire::get_u32(store, at) as usize)
}

// The object that a record names.
pub fn name_child(store: &[u8], n: NameNumber) -> ObjectNumber
    requires { name_start store.now n.0 + name_record_length ≤ length store.now }
    ensures { result.0 ≡ (name_at store.now n.0).child }
{
    let at = name_start(store, n);
    ObjectNumber(wire::get_u32(store, at + NameRecord::CHILD) as usize)
}

// The length that a record states; 0 where it is free.
pub fn name_length(store: &[u8], n: NameNumber) -> usize
    requires { name_start store.now n.0 + name_record_length ≤ length store.now }
    ensures { result ≡ name_length store.now n.0 }
{
    let at = name_start(store, n);
    wire::get_u32(store, at + NameRecord::LENGTH) as usize
}

pub fn is_used_name(store: &[u8], n: NameNumber) -> bool
    requires { name_start store.now n.0 + name_record_length ≤ length store.now }
    ensures { result ≡ is_used_name store.now n.0 }
{
    name_length(store, n) != 0
}

// Makes a record name `child` in `directory`, with a part of `call` as the name.
pub fn save_name(
    store: &mut [u8],
    n: NameNumber,
    directory: ObjectNumber,
    child: ObjectNumber,
    call: &[u8],
    name: Part,
)
    requires name_record_length_in_bounds { name_start store.old n.0 + name_record_length ≤ length store.old }
    requires directory_bound { directory.0 < 4294967296 }
    requires child_bound { child.0 < 4294967296 }
    requires length_in_bounds { name.start + name.length ≤ length call.now }
    requires length_le_most_name_bytes { name.length ≤ most_name_bytes }
    ensures { store.new ≡ put_name store.old n.0 (name_of directory.0 child.0 (text_of call.now name)) }
{
    let at = name_start(store, n);
    let from = name.start;
    let len = name.length;
    wire::put_u32(store, at, directory.0 as u32);
    wire::put_u32(store, at + NameRecord::CHILD, child.0 as u32);
    wire::put_u32(store, at + NameRecord::LENGTH, len as u32);
    wire::copy_bytes(store, at + NameRecord::TEXT, call, from, len);
    wire::clear_bytes(
        store,
        at + NameRecord::TEXT + len,
        Limit::MOST_NAME_BYTES - len,
    );
}

// Frees a record.
pub fn clear_name(store: &mut [u8], n: NameNumber)
    requires { name_start store.old n.0 + name_record_length ≤ length store.old }
    ensures { store.new ≡ put_name store.old n.0 free_name }
{
    let at = name_start(store, n);
    wire::clear_bytes(store, at, NameRecord::BYTES);
}
