// MOUNT version 3: the entry, which the crate mount3_c exports to C programs.
#![tactic(auto)]

ghost use Rattle.mount_spec.specs.Serve.{serve_mount};
ghost use Rattle.mount3.specs.Answers.{ServesMount};

pub mod tests; // the tests of a call before anything is written
pub mod reply; // the reply to a call

use crate::reply::respond;
use crate::tests::open;
use kinds::numbers::{Answer, Fault};

// Answers a call of MOUNT: 2, 4, 1, 12, 5, 7, 8 or 9, which change nothing, or 0 with the length of the reply. 8, 9 and GARBAGE_ARGS come with the byte
// at which the field starts that cannot be read.
pub fn mount3_call(
    call: &[u8],
    store: &[u8],
    table: &mut [u8],
    reply: &mut [u8],
    host: u32,
) -> Answer
    ensures { ServesMount (serve_mount call.now store.now table.old reply.old host) result reply.new table.new }
{
    match open(call, store, table, reply) {
        Ok(heard) => respond(store, table, reply, host, call, heard),
        Err(Fault { number, offset }) => Answer {
            number,
            length: 0,
            offset,
        },
    }
}
