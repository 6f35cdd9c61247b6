// The reply to a call, written once every test has passed.
#![tactic(auto)]

ghost use Rattle.std.specs.Prelude.{◌≡◌, ◌≤◌, length};
ghost use Rattle.kinds.specs.Numbers.{least_reply_bytes, most_call_bytes};
ghost use Rattle.kinds.specs.Reading.{place_of, read_of};
ghost use Rattle.spec.specs.Arguments.{arguments};
ghost use Rattle.spec.specs.Procedures.{act};
ghost use Rattle.spec.specs.Rpc.{nfs};
ghost use Rattle.spec.specs.Serve.{finish, respond};
ghost use Rattle.laws.proofs.ArgumentRange.{FitsArguments};
ghost use Rattle.laws.proofs.Arguments.{Within};
ghost use Rattle.rpc.specs.Meaning.{named_procedure};
ghost use Rattle.store_blocks.specs.Ready.{Ready};
ghost use Rattle.entry_reply.specs.Sends.{Sends};

use act_procedures::run;
use kinds::call::{Arguments, CallHeader};
use kinds::numbers::{Answer, Limit};
use kinds::object::Context;
use reply_whole::result::put_result;
use rpc::admit::{Heard, admit, replied};
use rpc::outcome::Program;

// Runs a procedure, and writes its reply.
fn finish(
    store: &mut [u8],
    reply: &mut [u8],
    used: &[u8; Limit::MOST_BLOCKS],
    context: Context,
    call: &[u8],
    h: CallHeader,
    a: Arguments,
) -> Answer
    requires least_reply_bytes_in_bounds { least_reply_bytes ≤ length reply.old }
    requires ready { Ready store.old used.now context }
    requires procedure_le_last { h.procedure ≤ nfs.last }
    requires within { Within (length call.now) a }
    requires fits_arguments { FitsArguments a }
    ensures { Sends (finish h (act store.old context call.now a)) result reply.old reply.new store.new }
{
    let r = run(store, used, context, call, a);
    let next = put_result(reply, store, h.procedure, h.xid, r);
    replied(next, 0)
}

// Answers a call that passed its tests: its procedure runs, or the reply says why it does not.
pub fn respond(
    store: &mut [u8],
    reply: &mut [u8],
    used: &[u8; Limit::MOST_BLOCKS],
    context: Context,
    call: &[u8],
    heard: Heard<Arguments>,
) -> Answer
    requires least_reply_bytes_in_bounds { least_reply_bytes ≤ length reply.old }
    requires ready { Ready store.old used.now context }
    requires read_value { read_of heard.arguments ≡ arguments (named_procedure heard.header) call.now heard.after.at }
    requires read_bound { place_of (read_of heard.arguments) ≤ most_call_bytes }
    ensures { Sends (respond store.old context call.now heard.header heard.after.at) result reply.old reply.new store.new }
{
    match admit(reply, Program::nfs(), heard) {
        Ok((h, a)) => finish(store, reply, used, context, call, h, a),
        Err(answer) => answer,
    }
}
