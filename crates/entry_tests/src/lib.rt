// The tests of a call before anything is written.
#![tactic(auto)]

ghost use Rattle.kinds.specs.Numbers.{most_blocks};
ghost use Rattle.fsck_objects.specs.Objects.{Blank};
ghost use Rattle.entry_tests.specs.Opens.{Opens};

use call_whole::read_call;
use fsck::check::check_store;
use kinds::call::Arguments;
use kinds::numbers::{Answer, Fault, Limit};
use kinds::object::Context;
use rpc::admit::Heard;
use rpc::header::fault;

// Tests the reply space, the clock, the call's length, the store and the header, in this order: the call as it was heard, or the number and the offset
// of the answer that refuses it. `used` is a map of zeros; of a store that passes it gets the map of its used blocks.
pub fn open(
    call: &[u8],
    store: &[u8],
    reply: &[u8],
    context: Context,
    used: &mut [u8; Limit::MOST_BLOCKS],
) -> Result<Heard<Arguments>, Fault>
    requires { Blank most_blocks used.old }
    ensures { Opens call.now store.now reply.now context used.new result }
{
    let clock = context.clock;
    if reply.len() < Limit::LEAST_REPLY_BYTES {
        return Err(Fault {
            number: Answer::REPLY_SPACE,
            offset: 0,
        });
    }
    if clock.nanoseconds >= Limit::NANOSECONDS_END {
        return Err(Fault {
            number: Answer::CLOCK,
            offset: 0,
        });
    }
    if call.len() > Limit::MOST_CALL_BYTES {
        return Err(Fault {
            number: Answer::CALL,
            offset: 0,
        });
    }
    let mut parents = [0u8; Limit::MOST_OBJECTS];
    let mut links = [0u8; Limit::MOST_OBJECTS];
    let Some(_) = check_store(store, used, &mut parents, &mut links) else {
        return Err(Fault {
            number: Answer::STORE,
            offset: 0,
        });
    };
    let whole = read_call(call, 0);
    match whole.header {
        Ok((header, after)) => Ok(Heard {
            header,
            after,
            arguments: whole.arguments,
        }),
        Err(broken) => Err(fault(call, broken.0)),
    }
}
