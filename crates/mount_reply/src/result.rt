// A whole reply to a call of MOUNT whose procedure ran.
ghost use Rattle.std.specs.Prelude.{cond, [], ◌∷◌, ◌++◌, ◌+◌, ◌-◌, ◌≤◌, ◌<◌, length};
ghost use Rattle.kinds.specs.Mount.{rows, least_mount_reply_bytes};
ghost use Rattle.spec.specs.Bytes.{words};
ghost use Rattle.spec.specs.Rpc.{accepted};
ghost use Rattle.mount_spec.specs.Procedures.{mounted};
ghost use Rattle.mount_spec.specs.Replies.{mount_bytes, mounts_bytes, exports_bytes, mount_result_bytes};
ghost use Rattle.mount_spec.specs.Table.{is_used_row};
ghost use Rattle.results.specs.Writable.{Showable};
ghost use Rattle.xdr.specs.Wrote.{Wrote};
ghost use Rattle.mount_results.specs.Meaning.{result_of};
ghost use Rattle.mount_reply.specs.Fits.{Fits, WritableMount, most_mount_bytes};

use crate::text::{put_host, put_opaque};
use kinds::mount::{Mount, Row, RowNumber};
use kinds::numbers::{Message, ObjectNumber, Status};
use mount_results::MountReply;
use mount_rows::{host_of, is_used, path_length, row_place};
use reply_fields::attributes::put_nfs_fh3;
use rpc::outcome::put_head;
use xdr::write::{put_word, put_words};

// One row of the list of mounts: the word 1, the host and the path.
fn put_mount(reply: &mut [u8], at: usize, table: &[u8], r: RowNumber) -> usize
    requires fits { Fits table.now }
    requires r_lt_rows { r.0 < rows }
    requires most_mount_bytes_in_bounds { at + most_mount_bytes ≤ length reply.old }
    ensures wrote { Wrote (length (mount_bytes table.now r.0)) reply.old reply.new at result (mount_bytes table.now r.0) }
    ensures upper_bound { result ≤ at + most_mount_bytes }
{
    let host = put_word(reply, at, 1);
    let path = put_host(reply, host, host_of(table, r));
    let n = path_length(table, r);
    put_opaque(reply, path, table, row_place(r) + Row::PATH, n)
}

// One row of the list of mounts if it is used, and else nothing.
fn put_used(reply: &mut [u8], at: usize, table: &[u8], r: RowNumber) -> usize
    requires fits { Fits table.now }
    requires r_lt_rows { r.0 < rows }
    requires most_mount_bytes_in_bounds { at + most_mount_bytes ≤ length reply.old }
    ensures wrote { Wrote (length (cond (is_used_row table.now r.0) (mount_bytes table.now r.0) [])) reply.old reply.new at result (cond (is_used_row table.now r.0) (mount_bytes table.now r.0) []) }
    ensures upper_bound { result ≤ at + most_mount_bytes }
{
    if !is_used(table, r) {
        return at;
    }
    put_mount(reply, at, table, r)
}

// The list of mounts: the used rows, lowest first, and the word 0.
fn put_mounts(reply: &mut [u8], at: usize, table: &[u8]) -> usize
    requires fits { Fits table.now }
    requires least_mount_reply_bytes_in_bounds { at + (least_mount_reply_bytes - 24) ≤ length reply.old }
    ensures { Wrote (length (mounts_bytes table.now rows ++ words (0 ∷ []))) reply.old reply.new at result (mounts_bytes table.now rows ++ words (0 ∷ [])) }
{
    let mut next = at;
    for i in 0..Row::COUNT {
        next = put_used(reply, next, table, RowNumber(i));
    }
    put_word(reply, next, 0)
}

// The list of exports: "/" without groups.
#[tactic(auto, unfolding(spec::specs::Bytes::bytes_of, spec::specs::Bytes::words, spec::specs::Bytes::opaque_bytes))]
fn put_exports(reply: &mut [u8], at: usize) -> usize
    requires { at + 20 ≤ length reply.old }
    ensures { Wrote 20 reply.old reply.new at result exports_bytes }
{
    let ws = [1u32, 1, 0x2F000000, 0, 0];
    put_words(reply, at, &ws)
}

// The handle of a mounted directory, and the flavors of credentials.
fn put_mounted(reply: &mut [u8], at: usize, store: &[u8], o: ObjectNumber) -> usize
    requires at_in_bounds { at + 32 ≤ length reply.old }
    requires showable { Showable store.now o.0 }
    ensures { Wrote 32 reply.old reply.new at result (mount_result_bytes store.now [] (mounted o.0)) }
{
    let handle = put_word(reply, at, Status::OK.0);
    let flavors = put_nfs_fh3(reply, handle, store, o);
    let ws = [2, Mount::AUTH_NONE, Mount::AUTH_UNIX];
    put_words(reply, flavors, &ws)
}

// The reply to a procedure that gave r.
pub fn put_mount_result(
    reply: &mut [u8],
    store: &[u8],
    table: &[u8],
    xid: u32,
    r: MountReply,
) -> usize
    requires least_mount_reply_bytes_in_bounds { least_mount_reply_bytes ≤ length reply.old }
    requires writable_mount { WritableMount store.now table.now r }
    ensures { Wrote (length (accepted xid 0 (mount_result_bytes store.now table.now (result_of r)))) reply.old reply.new 0 result (accepted xid 0 (mount_result_bytes store.now table.now (result_of r))) }
{
    let at = put_head(reply, xid, Message::SUCCESS);
    match r {
        MountReply::Nothing => at,
        MountReply::Failed(status) => put_word(reply, at, status.0),
        MountReply::Mounted(o) => put_mounted(reply, at, store, o),
        MountReply::Mounts => put_mounts(reply, at, table),
        MountReply::Exports => put_exports(reply, at),
    }
}
