// Attributes, changes and handles in a reply. All attributes are read from the store by `put_fattr3_of`, and written by `put_fattr3`.
ghost use Rattle.std.specs.Prelude.{◌+◌, ◌*◌, ◌≤◌, length};
ghost use Rattle.kinds.specs.Numbers.{handle_length};
ghost use Rattle.spec.specs.Bytes.{words, opaque_bytes};
ghost use Rattle.spec.specs.Replies.{fattr3, post_op, post_op_option, pre_op, wcc_data, wcc_option};
ghost use Rattle.spec.specs.Handles.{attributes, handle_of};
ghost use Rattle.results.specs.Meaning.{change_in, handle_attributes_in, handle_change_in};
ghost use Rattle.results.specs.Writable.{Showable, ShowableObject, ShowableChange};
ghost use Rattle.xdr.specs.Wrote.{Wrote};

use kinds::numbers::{Limit, ObjectNumber};
use kinds::object::{Attributes, Before};
use results::ObjectChange;
use store_attributes::attributes;
use store_records::counts::stamp_of;
use store_records::object::generation_of;
use xdr::write::{put_word, put_words};

const HANDLE_LENGTH: u32 = Limit::HANDLE_BYTES as u32;

// fattr3.
fn put_fattr3(reply: &mut [u8], at: usize, a: Attributes) -> usize
    requires { at + 84 ≤ length reply.old }
    ensures { Wrote 84 reply.old reply.new at result (words (fattr3 a)) }
{
    put_words(
        reply,
        at,
        &[
            a.kind,
            a.mode,
            a.nlink,
            a.uid,
            a.gid,
            0,
            a.size,
            0,
            a.used,
            0,
            0,
            0,
            a.fsid,
            0,
            a.fileid,
            a.atime.seconds,
            a.atime.nanoseconds,
            a.mtime.seconds,
            a.mtime.nanoseconds,
            a.ctime.seconds,
            a.ctime.nanoseconds,
        ],
    )
}

// fattr3, of an object.
pub fn put_fattr3_of(reply: &mut [u8], at: usize, store: &[u8], o: ObjectNumber) -> usize
    requires at_in_bounds { at + 84 ≤ length reply.old }
    requires showable { Showable store.now o.0 }
    ensures { Wrote 84 reply.old reply.new at result (words (fattr3 (attributes store.now o.0))) }
{
    put_fattr3(reply, at, attributes(store, o))
}

// post_op_attr, present, of an object.
pub fn put_post_op_attr(reply: &mut [u8], at: usize, store: &[u8], o: ObjectNumber) -> usize
    requires at_in_bounds { at + 88 ≤ length reply.old }
    requires showable { Showable store.now o.0 }
    ensures { Wrote 88 reply.old reply.new at result (words (post_op (attributes store.now o.0))) }
{
    let next = put_word(reply, at, 1);
    put_fattr3_of(reply, next, store, o)
}

// post_op_attr of a handle: present, or absent.
pub fn put_post_op_option(
    reply: &mut [u8],
    at: usize,
    store: &[u8],
    o: Option<ObjectNumber>,
) -> usize
    requires at_in_bounds { at + 88 ≤ length reply.old }
    requires showable_object { ShowableObject store.now o }
    ensures { Wrote (4 * length (post_op_option (handle_attributes_in store.now o))) reply.old reply.new at result (words (post_op_option (handle_attributes_in store.now o))) }
{
    match o {
        None => put_word(reply, at, 0),
        Some(object) => put_post_op_attr(reply, at, store, object),
    }
}

// pre_op_attr, present.
fn put_pre_op_attr(reply: &mut [u8], at: usize, b: Before) -> usize
    requires { at + 28 ≤ length reply.old }
    ensures { Wrote 28 reply.old reply.new at result (words (pre_op b)) }
{
    put_words(
        reply,
        at,
        &[
            1,
            0,
            b.size,
            b.mtime.seconds,
            b.mtime.nanoseconds,
            b.ctime.seconds,
            b.ctime.nanoseconds,
        ],
    )
}

// wcc_data, both parts present.
pub fn put_wcc_data(reply: &mut [u8], at: usize, store: &[u8], c: ObjectChange) -> usize
    requires at_in_bounds { at + 116 ≤ length reply.old }
    requires showable { Showable store.now c.object.0 }
    ensures { Wrote 116 reply.old reply.new at result (words (wcc_data (change_in store.now c))) }
{
    let next = put_pre_op_attr(reply, at, c.before);
    put_post_op_attr(reply, next, store, c.object)
}

// wcc_data of a handle: both parts present, or both absent.
pub fn put_wcc_option(reply: &mut [u8], at: usize, store: &[u8], c: Option<ObjectChange>) -> usize
    requires at_in_bounds { at + 116 ≤ length reply.old }
    requires showable_change { ShowableChange store.now c }
    ensures { Wrote (4 * length (wcc_option (handle_change_in store.now c))) reply.old reply.new at result (words (wcc_option (handle_change_in store.now c))) }
{
    match c {
        None => put_words(reply, at, &[0, 0]),
        Some(both) => put_wcc_data(reply, at, store, both),
    }
}

// nfs_fh3, of an object.
pub fn put_nfs_fh3(reply: &mut [u8], at: usize, store: &[u8], o: ObjectNumber) -> usize
    requires handle_length_in_bounds { at + (4 + handle_length) ≤ length reply.old }
    requires showable { Showable store.now o.0 }
    ensures { Wrote (4 + handle_length) reply.old reply.new at result (opaque_bytes (handle_of store.now o.0)) }
{
    put_words(
        reply,
        at,
        &[
            HANDLE_LENGTH,
            stamp_of(store),
            o.0 as u32,
            generation_of(store, o),
        ],
    )
}
