// The entries: what the crate nfs3_c exports to C programs.
#![tactic(auto)]

ghost use Rattle.std.specs.Prelude.{◌≡◌};
ghost use Rattle.spec.specs.Serve.{serve, check, format, convert};
ghost use Rattle.nfs3.specs.Answers.{answer_of, clock_of, context_of, Writes, Serves};

use convert::{MOST_RECORDS, convert_store};
use entry_reply::respond;
use entry_tests::open;
use fsck::check::check_store;
use fsck::format::format_store;
use kinds::numbers::{Answer, Fault, Limit};
use kinds::object::{Context, Time};

// Answers a call: 2, 3, 4, 1, 5, 7, 8 or 9, which change nothing, or 0 with the length of the reply. 8, 9 and GARBAGE_ARGS come with the byte at which
// the field starts that cannot be read.
pub fn nfs3_call(
    call: &[u8],
    store: &mut [u8],
    reply: &mut [u8],
    seconds: u32,
    nanoseconds: u32,
    verifier: u64,
) -> Answer
    ensures { Serves (serve call.now store.old reply.old (context_of seconds nanoseconds verifier)) result reply.new store.new }
{
    let clock = Time {
        seconds,
        nanoseconds,
    };
    let context = Context { clock, verifier };
    let mut used = [0u8; Limit::MOST_BLOCKS];
    match open(call, store, reply, context, &mut used) {
        Ok(heard) => respond(store, reply, &used, context, call, heard),
        Err(Fault { number, offset }) => Answer {
            number,
            length: 0,
            offset,
        },
    }
}

// Whether a store of any bytes passes the check: 0 or 1.
pub fn nfs3_check(store: &[u8]) -> Answer
    ensures { result ≡ answer_of (check store.now) }
{
    let mut used = [0u8; Limit::MOST_BLOCKS];
    let mut parents = [0u8; Limit::MOST_OBJECTS];
    let mut links = [0u8; Limit::MOST_OBJECTS];
    let found = check_store(store, &mut used, &mut parents, &mut links);
    match found {
        None => Answer {
            number: Answer::STORE,
            length: 0,
            offset: 0,
        },
        Some(_) => Answer {
            number: Answer::DONE,
            length: 0,
            offset: 0,
        },
    }
}

// Makes the bytes a store with a root directory and nothing else: 3, 6 or 0; 3 and 6 change nothing.
pub fn nfs3_format(
    store: &mut [u8],
    stamp: u32,
    objects: u32,
    names: u32,
    blocks: u32,
    seconds: u32,
    nanoseconds: u32,
) -> Answer
    ensures { Writes (format store.old stamp objects names blocks (clock_of seconds nanoseconds)) result store.new }
{
    let clock = Time {
        seconds,
        nanoseconds,
    };
    let number = format_store(store, stamp, objects, names, blocks, clock);
    Answer {
        number,
        length: 0,
        offset: 0,
    }
}

// Makes the bytes of `store` what an image of the old layout becomes: 1, 6 or 0; 1 and 6 change nothing.
pub fn nfs3_convert(old: &[u8], store: &mut [u8]) -> Answer
    ensures { Writes (convert old.now store.old) result store.new }
{
    let mut room = [0u8; MOST_RECORDS];
    let number = convert_store(old, store, &mut room);
    Answer {
        number,
        length: 0,
        offset: 0,
    }
}
