// MOUNT version 3: the function that a C program calls, as include/mount3.h declares it: the entry of mount3 with its name.
#![tactic(auto)]

ghost use Rattle.mount_spec.specs.Serve.{serve_mount};
ghost use Rattle.mount3.specs.Answers.{ServesMount};

use kinds::numbers::Answer;

// Answers a call of MOUNT: 2, 4, 1, 12, 5, 7, 8 or 9, which change nothing, or 0 with the length of the reply. 8, 9 and GARBAGE_ARGS come with the byte
// at which the field starts that cannot be read.
#[unsafe(no_mangle)]
pub extern "C" fn mount3_call(
    call: &[u8],
    store: &[u8],
    table: &mut [u8],
    reply: &mut [u8],
    host: u32,
) -> Answer
    ensures { ServesMount (serve_mount call.now store.now table.old reply.old host) result reply.new table.new }
{
    mount3::mount3_call(call, store, table, reply, host)
}
