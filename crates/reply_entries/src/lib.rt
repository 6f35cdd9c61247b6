// The entries of a directory in a reply.
#![tactic(auto)]

ghost use Rattle.std.specs.Prelude.{[], ◌∷◌, ◌++◌, ◌≡◌, ◌+◌, ◌*◌, ◌<◌, ◌≤◌, length, take};
ghost use Rattle.kinds.specs.Numbers.{most_objects, entry_fixed_cost};
ghost use Rattle.spec.specs.Bytes.{part, overlay, padding, zeros};
ghost use Rattle.spec.specs.Image.{names, name_start};
ghost use Rattle.spec.specs.Replies.{entry_bytes, entries_bytes};
ghost use Rattle.spec.specs.Procedures.Listing.{named_entries, entries, entries_above};
ghost use Rattle.laws.proofs.GoodRecords.{GoodRecords};
ghost use Rattle.laws.proofs.Range.{Below};
ghost use Rattle.results.specs.Writable.{Listable};
ghost use Rattle.xdr.specs.Wrote.{Wrote};
ghost use Rattle.reply_entries.specs.Entries.{PaddedName, entry, dots, entry_in, WroteEntries};

use kinds::layout::NameRecord;
use kinds::numbers::{NameNumber, ObjectNumber};
use store_records::counts::{name_count, names_start};
use store_search::name::parent_of;
use xdr::write::put_words;

// Where the next entry is written, and how many more are sent.
#[derive(Clone, Copy)]
pub struct Place {
    pub at: usize,
    pub left: usize,
}

// A name of len bytes, and zeros up to a multiple of four: src has both from `from`. They go word by word: of a number of bytes that the compiler does not
// know it makes a call of memmove, and nothing outside the libraries is called but memset.
fn put_padded(reply: &mut [u8], at: usize, src: &[u8], from: usize, len: usize) -> usize
    requires padded_name { PaddedName src.now from len }
    requires len_in_bounds { at + (len + padding len) ≤ length reply.old }
    ensures { Wrote (len + padding len) reply.old reply.new at result (part src.now from len ++ zeros (padding len)) }
{
    let count = (len + 3) / 4;
    for k in 0..count {
        let word = wire::get_u32(src, from + 4 * k);
        wire::put_u32(reply, at + 4 * k, word);
    }
    at + 4 * count
}

// An entry: the word 1, fileid, name and cookie. The name is the len bytes of src from `from`; `number` is the entry's cookie.
fn put_entry(
    reply: &mut [u8],
    at: usize,
    fileid: u32,
    src: &[u8],
    from: usize,
    len: usize,
    number: u32,
) -> usize
    requires padded_name { PaddedName src.now from len }
    requires len_in_bounds { at + (entry_fixed_cost + (len + padding len)) ≤ length reply.old }
    ensures { Wrote (entry_fixed_cost + (len + padding len)) reply.old reply.new at result (entry_bytes (entry fileid (part src.now from len) number)) }
{
    let text = put_words(reply, at, &[1, 0, fileid, len as u32]);
    let end = put_padded(reply, text, src, from, len);
    put_words(reply, end, &[0, number])
}

// One entry, if its number is above the cookie of the call and one more is sent.
fn put_above(
    reply: &mut [u8],
    p: Place,
    fileid: u32,
    src: &[u8],
    from: usize,
    len: usize,
    number: u32,
    cookie: u64,
) -> Place
    requires padded_name { PaddedName src.now from len }
    requires number_in_bounds { p.at + length (entries_bytes (take p.left (entries_above cookie (entry fileid (part src.now from len) number ∷ [])))) ≤ length reply.old }
    ensures { WroteEntries (entries_above cookie (entry fileid (part src.now from len) number ∷ [])) reply.old reply.new p result }
{
    if cookie >= number as u64 || p.left == 0 {
        return p;
    }
    let at = put_entry(reply, p.at, fileid, src, from, len, number);
    Place {
        at,
        left: p.left - 1,
    }
}

// "." and "..", as far as they are above the cookie of the call.
fn put_dots(
    reply: &mut [u8],
    p: Place,
    directory: ObjectNumber,
    parent: ObjectNumber,
    cookie: u64,
) -> Place
    requires directory_lt_most_objects { directory.0 < most_objects }
    requires parent_lt_most_objects { parent.0 < most_objects }
    requires parent_in_bounds { p.at + length (entries_bytes (take p.left (entries_above cookie (dots directory.0 parent.0)))) ≤ length reply.old }
    ensures { WroteEntries (entries_above cookie (dots directory.0 parent.0)) reply.old reply.new p result }
{
    let text = [b'.', b'.', 0, 0, 0];
    let q = put_above(reply, p, directory.0 as u32 + 1, &text, 1, 1, 1, cookie);
    put_above(reply, q, parent.0 as u32 + 1, &text, 0, 2, 2, cookie)
}

// The entry of one name record, which starts at `at`, if it is in the directory and above the cookie.
fn put_name(
    reply: &mut [u8],
    p: Place,
    store: &[u8],
    at: usize,
    directory: ObjectNumber,
    n: NameNumber,
    cookie: u64,
) -> Place
    requires good_records { GoodRecords store.now }
    requires n_bound { n.0 < names store.now }
    requires at_value { at ≡ name_start store.now n.0 }
    requires n_in_bounds { p.at + length (entries_bytes (take p.left (entries_above cookie (entry_in store.now directory.0 n.0)))) ≤ length reply.old }
    ensures { WroteEntries (entries_above cookie (entry_in store.now directory.0 n.0)) reply.old reply.new p result }
{
    if wire::get_u32(store, at) as usize != directory.0 {
        return p;
    }
    let len = wire::get_u32(store, at + NameRecord::LENGTH);
    if len == 0 {
        return p;
    }
    let fileid = wire::get_u32(store, at + NameRecord::CHILD) + 1;
    let number = n.0 as u32 + 3;
    put_above(
        reply,
        p,
        fileid,
        store,
        at + NameRecord::TEXT,
        len as usize,
        number,
        cookie,
    )
}

// The entries of all name records in the directory, as far as they are above the cookie.
fn put_names(
    reply: &mut [u8],
    p: Place,
    store: &[u8],
    directory: ObjectNumber,
    cookie: u64,
) -> Place
    requires good_records { GoodRecords store.now }
    requires store_in_bounds { p.at + length (entries_bytes (take p.left (entries_above cookie (named_entries store.now directory.0 (names store.now))))) ≤ length reply.old }
    ensures { WroteEntries (entries_above cookie (named_entries store.now directory.0 (names store.now))) reply.old reply.new p result }
{
    let first = names_start(store);
    let mut q = p;
    for n in 0..name_count(store) {
        if q.left == 0 {
            break;
        }
        let start = first + NameRecord::BYTES * n;
        q = put_name(reply, q, store, start, directory, NameNumber(n), cookie);
    }
    q
}

// The first `count` entries of a directory above the cookie.
pub fn put_entries(
    reply: &mut [u8],
    at: usize,
    store: &[u8],
    directory: ObjectNumber,
    cookie: u64,
    count: usize,
) -> usize
    requires listable { Listable store.now directory.0 cookie count }
    requires directory_in_bounds { at + length (entries_bytes (take count (entries_above cookie (entries store.now directory.0)))) ≤ length reply.old }
    ensures { Wrote (length (entries_bytes (take count (entries_above cookie (entries store.now directory.0))))) reply.old reply.new at result (entries_bytes (take count (entries_above cookie (entries store.now directory.0)))) }
{
    let parent = parent_of(store, directory);
    let start = Place { at, left: count };
    let behind = put_dots(reply, start, directory, parent, cookie);
    let end = put_names(reply, behind, store, directory, cookie);
    end.at
}
