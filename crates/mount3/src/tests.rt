// The tests of a call before anything is written.
ghost use Rattle.mount3.specs.Opens.{OpensMount};

use fsck::check::check_store;
use kinds::mount::{Mount, MountArguments};
use kinds::numbers::{Answer, Fault, Limit};
use mount_call::read_mount_call;
use mount_check::check_table;
use rpc::admit::Heard;
use rpc::header::fault;

// Tests the reply space, the call's length, the store, the table and the header, in this order: the call as it was heard, or the number and the offset
// of the answer that refuses it. Not one function with that of entry_tests: the clock stands there between the first two tests, the table here after the
// store.
pub fn open(
    call: &[u8],
    store: &[u8],
    table: &[u8],
    reply: &[u8],
) -> Result<Heard<MountArguments>, Fault>
    ensures { OpensMount call.now store.now table.now reply.now result }
{
    if reply.len() < Mount::LEAST_REPLY_BYTES {
        return Err(Fault {
            number: Answer::REPLY_SPACE,
            offset: 0,
        });
    }
    if call.len() > Limit::MOST_CALL_BYTES {
        return Err(Fault {
            number: Answer::CALL,
            offset: 0,
        });
    }
    let mut used = [0u8; Limit::MOST_BLOCKS];
    let mut parents = [0u8; Limit::MOST_OBJECTS];
    let mut links = [0u8; Limit::MOST_OBJECTS];
    let Some(_) = check_store(store, &mut used, &mut parents, &mut links) else {
        return Err(Fault {
            number: Answer::STORE,
            offset: 0,
        });
    };
    if !check_table(table) {
        return Err(Fault {
            number: Answer::TABLE,
            offset: 0,
        });
    }
    let whole = read_mount_call(call, 0);
    match whole.header {
        Ok((header, after)) => Ok(Heard {
            header,
            after,
            arguments: whole.arguments,
        }),
        Err(broken) => Err(fault(call, broken.0)),
    }
}
