// Whether the procedure of a call that passed its tests runs, and the reply where it does not.
ghost use Rattle.std.specs.Prelude.{◌≡◌, ◌≤◌, ◌<◌, ◌^◌, length};
ghost use Rattle.kinds.specs.Numbers.{most_call_bytes};
ghost use Rattle.kinds.specs.Reading.{place_of, read_of};
ghost use Rattle.rpc.specs.Admits.{admission, Admits};
ghost use Rattle.rpc.specs.Meaning.{program_of};

use crate::outcome::{AcceptStat, Program, judge, put_denied, put_stopped};
use kinds::call::{CallHeader, Cursor, Header};
use kinds::numbers::Answer;
use kinds::reading::Read;

// A call that passed its tests: its header, where that ends, and what was read of its arguments there.
#[derive(Clone, Copy)]
pub struct Heard<A> {
    pub header: Header,
    pub after: Cursor,
    pub arguments: Read<A>,
}

// The answer to a call whose reply was written: the reply's length, and the byte at which its arguments break, or 0.
pub fn replied(length: usize, offset: usize) -> Answer
    requires length { length < 2 ^ 32 }
    requires offset { offset < 2 ^ 32 }
    ensures { (result.number ≡ 0) × (result.length ≡ length) × (result.offset ≡ offset) }
{
    Answer {
        number: Answer::DONE,
        length: length as u32,
        offset: offset as u32,
    }
}

// The header and the arguments with which the procedure of a call runs; or the answer, where the reply was written that says why none runs.
#[tactic(auto, unfolding(spec::specs::Rpc::mismatch))]
pub fn admit<A: Copy>(
    reply: &mut [u8],
    p: Program,
    heard: Heard<A>,
) -> Result<(CallHeader, A), Answer>
    requires space { 32 ≤ length reply.old }
    requires read_bound { place_of (read_of heard.arguments) ≤ most_call_bytes }
    ensures { Admits (admission (program_of p) heard.header (read_of heard.arguments)) result reply.old reply.new }
{
    let h = match heard.header {
        Header::Call(h) => h,
        Header::OtherVersion(xid) => {
            let next = put_denied(reply, xid);
            return Err(replied(next, 0));
        }
    };
    if let Err(stat) = judge(p, h) {
        let next = put_stopped(reply, p, h.xid, stat.0);
        return Err(replied(next, 0));
    }
    match heard.arguments {
        Ok((a, _)) => Ok((h, a)),
        Err(broken) => {
            let next = put_stopped(reply, p, h.xid, AcceptStat::GARBAGE_ARGS.0);
            Err(replied(next, broken.0))
        }
    }
}
