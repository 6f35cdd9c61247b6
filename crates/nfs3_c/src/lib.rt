// The functions that a C program calls, as include/nfs3.h declares them: each is the entry of nfs3 with its name.
#![tactic(auto)]

ghost use Rattle.std.specs.Prelude.{◌≡◌};
ghost use Rattle.spec.specs.Serve.{serve, check, format, convert};
ghost use Rattle.nfs3.specs.Answers.{answer_of, clock_of, context_of, Writes, Serves};

use kinds::numbers::Answer;

// Answers a call: 2, 3, 4, 1, 5, 7, 8 or 9, which change nothing, or 0 with the length of the reply. 8, 9 and GARBAGE_ARGS come with the byte at which
// the field starts that cannot be read.
#[unsafe(no_mangle)]
pub extern "C" fn nfs3_call(
    call: &[u8],
    store: &mut [u8],
    reply: &mut [u8],
    seconds: u32,
    nanoseconds: u32,
    verifier: u64,
) -> Answer
    ensures { Serves (serve call.now store.old reply.old (context_of seconds nanoseconds verifier)) result reply.new store.new }
{
    nfs3::nfs3_call(call, store, reply, seconds, nanoseconds, verifier)
}

// Whether a store of any bytes passes the check: 0 or 1.
#[unsafe(no_mangle)]
pub extern "C" fn nfs3_check(store: &[u8]) -> Answer
    ensures { result ≡ answer_of (check store.now) }
{
    nfs3::nfs3_check(store)
}

// Makes the bytes a store with a root directory and nothing else: 3, 6 or 0; 3 and 6 change nothing.
#[unsafe(no_mangle)]
pub extern "C" fn nfs3_format(
    store: &mut [u8],
    stamp: u32,
    objects: u32,
    names: u32,
    blocks: u32,
    seconds: u32,
    nanoseconds: u32,
) -> Answer
    ensures { Writes (format store.old stamp objects names blocks (clock_of seconds nanoseconds)) result store.new }
{
    nfs3::nfs3_format(store, stamp, objects, names, blocks, seconds, nanoseconds)
}

// Makes the bytes of `store` what an image of the old layout becomes: 1, 6 or 0; 1 and 6 change nothing.
#[unsafe(no_mangle)]
pub extern "C" fn nfs3_convert(old: &[u8], store: &mut [u8]) -> Answer
    ensures { Writes (convert old.now store.old) result store.new }
{
    nfs3::nfs3_convert(old, store)
}
