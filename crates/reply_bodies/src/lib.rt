// The parts of each procedure's results in a reply. The results begin with the status; most go on with attributes that are read from the store,
// and end with what is written here from numbers alone.
#![tactic(auto)]

ghost use Rattle.std.specs.Prelude.{◌≡◌, [], ◌∷◌, ◌++◌, ◌+◌, ◌*◌, ◌/◌, ◌%◌, ◌≤◌, length, take};
ghost use Rattle.kinds.specs.Numbers.{OK, most_file_bytes, most_name_bytes, most_transfer_bytes, most_links, file_sync, file_system_properties};
ghost use Rattle.spec.specs.Bytes.{words, opaque_bytes, padding};
ghost use Rattle.spec.specs.Count.{bit};
ghost use Rattle.spec.specs.Edits.{read_file};
ghost use Rattle.spec.specs.Handles.{attributes, handle_of};
ghost use Rattle.spec.specs.Procedures.Listing.{entries, entries_above};
ghost use Rattle.spec.specs.Replies.{hyper, fattr3, post_op, post_op_option, wcc_data, wcc_option, entries_bytes};
ghost use Rattle.results.specs.Meaning.{change_in, handle_attributes_in, handle_change_in};
ghost use Rattle.results.specs.Writable.{Showable, ShowableObject, ShowableChange, Readable, Listable};
ghost use Rattle.xdr.specs.Wrote.{Wrote};

use kinds::numbers::{Limit, ObjectNumber, Status};
use reply_entries::put_entries;
use reply_fields::attributes::{
    put_fattr3_of, put_nfs_fh3, put_post_op_attr, put_post_op_option, put_wcc_data, put_wcc_option,
};
use reply_file::put_file_bytes;
use results::ObjectChange;
use xdr::write::{put_word, put_words};

// Limits as the words of a reply.
const TRANSFER: u32 = Limit::MOST_TRANSFER_BYTES as u32;

const LARGEST_FILE: u32 = Limit::MOST_FILE_BYTES as u32;

const LONGEST_NAME: u32 = Limit::MOST_NAME_BYTES as u32;

// The two words of a number of 64 bits.
fn high(v: u64) -> u32
    ensures { result ≡ v / 4294967296 }
{
    (v / 4294967296) as u32
}

fn low(v: u64) -> u32
    ensures { result ≡ v % 4294967296 }
{
    (v % 4294967296) as u32
}

// A boolean.
fn flag(b: bool) -> u32
    ensures { result ≡ bit b }
{
    if b { 1 } else { 0 }
}

// The status, and the post_op_attr of an object.
pub fn put_status_post_op_attr(
    reply: &mut [u8],
    at: usize,
    store: &[u8],
    status: Status,
    o: ObjectNumber,
) -> usize
    requires at_in_bounds { at + 92 ≤ length reply.old }
    requires showable { Showable store.now o.0 }
    ensures { Wrote 92 reply.old reply.new at result (words (status.0 ∷ post_op (attributes store.now o.0))) }
{
    let next = put_word(reply, at, status.0);
    put_post_op_attr(reply, next, store, o)
}

// The status, and the wcc_data of an object.
pub fn put_status_wcc_data(
    reply: &mut [u8],
    at: usize,
    store: &[u8],
    status: Status,
    c: ObjectChange,
) -> usize
    requires at_in_bounds { at + 120 ≤ length reply.old }
    requires showable { Showable store.now c.object.0 }
    ensures { Wrote 120 reply.old reply.new at result (words (status.0 ∷ wcc_data (change_in store.now c))) }
{
    let next = put_word(reply, at, status.0);
    put_wcc_data(reply, next, store, c)
}

// RENAME, whole: the status, and the wcc_data of both directories.
pub fn put_renamed(
    reply: &mut [u8],
    at: usize,
    store: &[u8],
    status: Status,
    c: Option<ObjectChange>,
    d: Option<ObjectChange>,
) -> usize
    requires at_in_bounds { at + 236 ≤ length reply.old }
    requires showable_change { ShowableChange store.now c }
    requires showable_change_2 { ShowableChange store.now d }
    ensures { Wrote (4 + 4 * length (wcc_option (handle_change_in store.now c)) + 4 * length (wcc_option (handle_change_in store.now d))) reply.old reply.new at result (words (status.0 ∷ wcc_option (handle_change_in store.now c) ++ wcc_option (handle_change_in store.now d))) }
{
    let next = put_word(reply, at, status.0);
    let behind = put_wcc_option(reply, next, store, c);
    put_wcc_option(reply, behind, store, d)
}

// LINK, whole: the status, the post_op_attr of the file and the wcc_data of the directory.
// Not one function with put_renamed: the first parts have two types, each with its own writer and its own clauses.
pub fn put_linked(
    reply: &mut [u8],
    at: usize,
    store: &[u8],
    status: Status,
    o: Option<ObjectNumber>,
    c: Option<ObjectChange>,
) -> usize
    requires at_in_bounds { at + 208 ≤ length reply.old }
    requires showable_object { ShowableObject store.now o }
    requires showable_change { ShowableChange store.now c }
    ensures { Wrote (4 + 4 * length (post_op_option (handle_attributes_in store.now o)) + 4 * length (wcc_option (handle_change_in store.now c))) reply.old reply.new at result (words (status.0 ∷ post_op_option (handle_attributes_in store.now o) ++ wcc_option (handle_change_in store.now c))) }
{
    let next = put_word(reply, at, status.0);
    let behind = put_post_op_option(reply, next, store, o);
    put_wcc_option(reply, behind, store, c)
}

// GETATTR, whole: OK, and the fattr3 of the object. Not one function with put_post_op_attr: its word is a status, that one a boolean.
pub fn put_got_attributes(reply: &mut [u8], at: usize, store: &[u8], o: ObjectNumber) -> usize
    requires at_in_bounds { at + 88 ≤ length reply.old }
    requires showable { Showable store.now o.0 }
    ensures { Wrote 88 reply.old reply.new at result (words (OK ∷ fattr3 (attributes store.now o.0))) }
{
    let next = put_word(reply, at, 0);
    put_fattr3_of(reply, next, store, o)
}

// LOOKUP, whole: OK, the nfs_fh3 of the object, its post_op_attr and that of the directory.
pub fn put_found(
    reply: &mut [u8],
    at: usize,
    store: &[u8],
    o: ObjectNumber,
    d: ObjectNumber,
) -> usize
    requires at_in_bounds { at + 196 ≤ length reply.old }
    requires showable { Showable store.now o.0 }
    requires showable_2 { Showable store.now d.0 }
    ensures { Wrote 196 reply.old reply.new at result (words (OK ∷ []) ++ opaque_bytes (handle_of store.now o.0) ++ words (post_op (attributes store.now o.0) ++ post_op (attributes store.now d.0))) }
{
    let handle = put_word(reply, at, 0);
    let object = put_nfs_fh3(reply, handle, store, o);
    let directory = put_post_op_attr(reply, object, store, o);
    put_post_op_attr(reply, directory, store, d)
}

// CREATE and MKDIR, whole: OK, the post_op_fh3 and the post_op_attr of the object, and the wcc_data of the directory.
pub fn put_created(
    reply: &mut [u8],
    at: usize,
    store: &[u8],
    o: ObjectNumber,
    d: ObjectChange,
) -> usize
    requires at_in_bounds { at + 228 ≤ length reply.old }
    requires showable { Showable store.now o.0 }
    requires showable_2 { Showable store.now d.object.0 }
    ensures { Wrote 228 reply.old reply.new at result (words (OK ∷ 1 ∷ []) ++ opaque_bytes (handle_of store.now o.0) ++ words (post_op (attributes store.now o.0) ++ wcc_data (change_in store.now d))) }
{
    let handle = put_words(reply, at, &[0, 1]);
    let object = put_nfs_fh3(reply, handle, store, o);
    let directory = put_post_op_attr(reply, object, store, o);
    put_wcc_data(reply, directory, store, d)
}

// READ, after the attributes: the count, whether the end was reached, and n bytes of the file from `offset`.
pub fn put_read_bytes(
    reply: &mut [u8],
    at: usize,
    store: &[u8],
    o: ObjectNumber,
    eof: bool,
    offset: usize,
    n: usize,
) -> usize
    requires readable { Readable store.now o.0 offset n }
    requires n_in_bounds { at + (8 + (4 + n + padding n)) ≤ length reply.old }
    ensures { Wrote (8 + (4 + n + padding n)) reply.old reply.new at result (words (n ∷ bit eof ∷ []) ++ opaque_bytes (read_file store.now o.0 offset n)) }
{
    let bytes = put_words(reply, at, &[n as u32, flag(eof)]);
    put_file_bytes(reply, bytes, store, o, offset, n)
}

// READDIR, after the attributes: a verifier of zero, the first n entries above the cookie, the word 0 that ends them, and whether nothing remains.
pub fn put_listing(
    reply: &mut [u8],
    at: usize,
    store: &[u8],
    o: ObjectNumber,
    eof: bool,
    cookie: u64,
    n: usize,
) -> usize
    requires listable { Listable store.now o.0 cookie n }
    requires o_in_bounds { at + (8 + length (entries_bytes (take n (entries_above cookie (entries store.now o.0)))) + 8) ≤ length reply.old }
    ensures { Wrote (8 + length (entries_bytes (take n (entries_above cookie (entries store.now o.0)))) + 8) reply.old reply.new at result (words (hyper 0) ++ entries_bytes (take n (entries_above cookie (entries store.now o.0))) ++ words (0 ∷ bit eof ∷ [])) }
{
    let first = put_words(reply, at, &[0, 0]);
    let behind = put_entries(reply, first, store, o, cookie, n);
    put_words(reply, behind, &[0, flag(eof)])
}

// COMMIT, after the wcc_data, and the end of WRITE: writeverf3.
pub fn put_verifier(reply: &mut [u8], at: usize, verifier: u64) -> usize
    requires { at + 8 ≤ length reply.old }
    ensures { Wrote 8 reply.old reply.new at result (words (hyper verifier)) }
{
    put_words(reply, at, &[high(verifier), low(verifier)])
}

// WRITE, after the wcc_data: the count, FILE_SYNC and the verifier.
pub fn put_written(reply: &mut [u8], at: usize, count: u32, verifier: u64) -> usize
    requires { at + 16 ≤ length reply.old }
    ensures { Wrote 16 reply.old reply.new at result (words (count ∷ file_sync ∷ hyper verifier)) }
{
    let next = put_words(reply, at, &[count, Limit::FILE_SYNC]);
    put_verifier(reply, next, verifier)
}

// FSSTAT, after the attributes: bytes and objects, each number as all of them, those free, and those free for the caller; then no time for
// which they hold.
pub fn put_room(
    reply: &mut [u8],
    at: usize,
    total: u32,
    free: u32,
    objects: u32,
    available: u32,
) -> usize
    requires { at + 52 ≤ length reply.old }
    ensures { Wrote 52 reply.old reply.new at result (words (hyper total ++ hyper free ++ hyper free ++ hyper objects ++ hyper available ++ hyper available ++ (0 ∷ []))) }
{
    put_words(
        reply,
        at,
        &[
            0, total, 0, free, 0, free, 0, objects, 0, available, 0, available, 0,
        ],
    )
}

// FSINFO, after the attributes.
pub fn put_limits(reply: &mut [u8], at: usize) -> usize
    requires { at + 48 ≤ length reply.old }
    ensures { Wrote 48 reply.old reply.new at result (words ((most_transfer_bytes ∷ most_transfer_bytes ∷ 1 ∷ most_transfer_bytes ∷ most_transfer_bytes ∷ 1 ∷ most_transfer_bytes ∷ hyper most_file_bytes) ++ (0 ∷ 1 ∷ file_system_properties ∷ []))) }
{
    put_words(
        reply,
        at,
        &[
            TRANSFER,
            TRANSFER,
            1,
            TRANSFER,
            TRANSFER,
            1,
            TRANSFER,
            0,
            LARGEST_FILE,
            0,
            1,
            Limit::PROPERTIES,
        ],
    )
}

// PATHCONF, after the attributes.
pub fn put_naming(reply: &mut [u8], at: usize) -> usize
    requires { at + 24 ≤ length reply.old }
    ensures { Wrote 24 reply.old reply.new at result (words (most_links ∷ most_name_bytes ∷ 1 ∷ 0 ∷ 0 ∷ 1 ∷ [])) }
{
    put_words(reply, at, &[Limit::MOST_LINKS, LONGEST_NAME, 1, 0, 0, 1])
}
