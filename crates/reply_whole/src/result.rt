// A whole reply to a call whose procedure ran.
ghost use Rattle.std.specs.Prelude.{◌≤◌, length};
ghost use Rattle.kinds.specs.Numbers.{least_reply_bytes};
ghost use Rattle.spec.specs.Replies.{result_bytes};
ghost use Rattle.spec.specs.Rpc.{accepted};
ghost use Rattle.results.specs.Meaning.{result_of};
ghost use Rattle.results.specs.Writable.{Writable};
ghost use Rattle.xdr.specs.Wrote.{Wrote};

use kinds::numbers::{Message, Status};
use reply_bodies::{
    put_created, put_found, put_got_attributes, put_limits, put_linked, put_listing, put_naming,
    put_read_bytes, put_renamed, put_room, put_status_post_op_attr, put_status_wcc_data,
    put_verifier, put_written,
};
use reply_fields::failure::put_dead;
use results::Reply;
use rpc::outcome::put_head;
use xdr::write::put_word;

// The reply to a procedure that gave r.
pub fn put_result(reply: &mut [u8], store: &[u8], procedure: u32, xid: u32, r: Reply) -> usize
    requires procedure_bound { procedure ≤ 21 }
    requires least_reply_bytes_in_bounds { least_reply_bytes ≤ length reply.old }
    requires writable { Writable store.now r }
    ensures { Wrote (length (accepted xid 0 (result_bytes procedure (result_of store.now r)))) reply.old reply.new 0 result (accepted xid 0 (result_bytes procedure (result_of store.now r))) }
{
    let at = put_head(reply, xid, Message::SUCCESS);
    match r {
        Reply::Null => at,
        Reply::Dead(status) => put_dead(reply, at, procedure as usize, status),
        Reply::Failed(status, o) => put_status_post_op_attr(reply, at, store, status, o),
        Reply::Changed(status, c) => put_status_wcc_data(reply, at, store, status, c),
        Reply::Renamed(status, c, d) => put_renamed(reply, at, store, status, c, d),
        Reply::Linked(status, o, c) => put_linked(reply, at, store, status, o, c),
        Reply::GotAttributes(o) => put_got_attributes(reply, at, store, o),
        Reply::Found(o, d) => put_found(reply, at, store, o, d),
        Reply::Granted(o, bits) => {
            let next = put_status_post_op_attr(reply, at, store, Status::OK, o);
            put_word(reply, next, bits)
        }
        Reply::GotBytes(o, eof, offset, n) => {
            let next = put_status_post_op_attr(reply, at, store, Status::OK, o);
            put_read_bytes(reply, next, store, o, eof, offset, n)
        }
        Reply::Wrote(c, count, verifier) => {
            let next = put_status_wcc_data(reply, at, store, Status::OK, c);
            put_written(reply, next, count, verifier)
        }
        Reply::Created(o, d) => put_created(reply, at, store, o, d),
        Reply::Listed(o, eof, cookie, n) => {
            let next = put_status_post_op_attr(reply, at, store, Status::OK, o);
            put_listing(reply, next, store, o, eof, cookie, n)
        }
        Reply::GotRoom(o, total, free, objects, available) => {
            let next = put_status_post_op_attr(reply, at, store, Status::OK, o);
            put_room(reply, next, total, free, objects, available)
        }
        Reply::GotLimits(o) => {
            let next = put_status_post_op_attr(reply, at, store, Status::OK, o);
            put_limits(reply, next)
        }
        Reply::GotNaming(o) => {
            let next = put_status_post_op_attr(reply, at, store, Status::OK, o);
            put_naming(reply, next)
        }
        Reply::Committed(c, verifier) => {
            let next = put_status_wcc_data(reply, at, store, Status::OK, c);
            put_verifier(reply, next, verifier)
        }
    }
}
