// One name record by itself. `p`, the number of objects, is read once and handed on beside the store: a struct of the two would need the tie between
// them, `p_value`, all the same.
ghost use Rattle.std.specs.Prelude.{◌≡◌, ◌+◌, ◌≤◌, ◌<◌, length};
ghost use Rattle.kinds.specs.Layout.{length_offset, name_record_length};
ghost use Rattle.spec.specs.Image.{objects, names, name_at, name_length};
ghost use Rattle.spec.specs.Bytes.{part, be_at};
ghost use Rattle.spec.specs.Check.{is_zero, good_used, good_name_record};
ghost use Rattle.laws.proofs.Valid.{Framed};
ghost use Rattle.fsck_objects.specs.Objects.{Inside};
ghost use Rattle.fsck_names.specs.Record.{is_directory_in, is_live_in};

use crate::text::good_text;
use kinds::layout::NameRecord;
use kinds::numbers::{Limit, NameNumber, ObjectNumber};
use store_places::name_place;
use store_records::object::{is_directory, is_live};

// Whether o is the number of a directory.
fn is_directory_in(store: &[u8], p: usize, o: ObjectNumber) -> bool
    requires framed { Framed store.now }
    requires p_value { p ≡ objects store.now }
    ensures { result ≡ is_directory_in store.now o.0 }
{
    o.0 < p && is_directory(store, o)
}

// Whether o is the number of a live object.
fn is_live_in(store: &[u8], p: usize, o: ObjectNumber) -> bool
    requires framed { Framed store.now }
    requires p_value { p ≡ objects store.now }
    ensures { result ≡ is_live_in store.now o.0 }
{
    o.0 < p && is_live(store, o)
}

// Whether name record n, of a length other than 0, passes by itself.
fn good_used(store: &[u8], inside: &[u8; 64], p: usize, n: NameNumber, len: usize) -> bool
    requires framed { Framed store.now }
    requires p_value { p ≡ objects store.now }
    requires n_bound { n.0 < names store.now }
    requires len_value { len ≡ name_length store.now n.0 }
    requires le_len { 1 ≤ len }
    requires inside { Inside inside.now }
    ensures { result ≡ good_used store.now n.0 }
{
    let at = name_place(p, n);
    if len > Limit::MOST_NAME_BYTES {
        return false;
    }
    if !good_text(store, inside, at + NameRecord::TEXT, len) {
        return false;
    }
    let directory = ObjectNumber(wire::get_u32(store, at) as usize);
    if !is_directory_in(store, p, directory) {
        return false;
    }
    let child = ObjectNumber(wire::get_u32(store, at + NameRecord::CHILD) as usize);
    is_live_in(store, p, child)
}

// The length that name record n states; 0 where it is free.
pub fn length_of(store: &[u8], p: usize, n: NameNumber) -> usize
    requires framed { Framed store.now }
    requires p_value { p ≡ objects store.now }
    requires n_bound { n.0 < names store.now }
    ensures { result ≡ name_length store.now n.0 }
{
    wire::get_u32(store, name_place(p, n) + NameRecord::LENGTH) as usize
}

// The directory of name record n.
pub fn directory_of(store: &[u8], p: usize, n: NameNumber) -> ObjectNumber
    requires framed { Framed store.now }
    requires p_value { p ≡ objects store.now }
    requires n_bound { n.0 < names store.now }
    ensures { result.0 ≡ (name_at store.now n.0).directory }
{
    ObjectNumber(wire::get_u32(store, name_place(p, n)) as usize)
}

// The object that name record n names.
pub fn child_of(store: &[u8], p: usize, n: NameNumber) -> ObjectNumber
    requires framed { Framed store.now }
    requires p_value { p ≡ objects store.now }
    requires n_bound { n.0 < names store.now }
    ensures { result.0 ≡ (name_at store.now n.0).child }
{
    ObjectNumber(wire::get_u32(store, name_place(p, n) + NameRecord::CHILD) as usize)
}

// Whether the name record from `at`, whose length is 0, is zero.
fn is_free(store: &[u8], at: usize) -> bool
    requires name_record_length_in_bounds { at + name_record_length ≤ length store.now }
    requires length_offset_value { be_at store.now (at + length_offset) 4 ≡ 0 }
    ensures { result ≡ is_zero (part store.now at name_record_length) }
{
    if wire::get_u64(store, at) != 0 {
        return false;
    }
    wire::is_zero(store, at + NameRecord::TEXT, Limit::MOST_NAME_BYTES)
}

// Whether name record n, which states the length `len`, passes by itself.
pub fn record_passes(store: &[u8], inside: &[u8; 64], p: usize, n: NameNumber, len: usize) -> bool
    requires framed { Framed store.now }
    requires p_value { p ≡ objects store.now }
    requires n_bound { n.0 < names store.now }
    requires len_value { len ≡ name_length store.now n.0 }
    requires inside { Inside inside.now }
    ensures { result ≡ good_name_record store.now n.0 }
{
    if len == 0 {
        return is_free(store, name_place(p, n));
    }
    good_used(store, inside, p, n, len)
}
