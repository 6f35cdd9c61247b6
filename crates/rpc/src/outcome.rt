// Whether a procedure runs, and the replies of calls that do not run.
ghost use Rattle.std.specs.Prelude.{◌≡◌, ◌≤◌, length};
ghost use Rattle.spec.specs.Rpc.{judge, nfs, denied, head, accepted, mismatch};
ghost use Rattle.rpc.specs.Meaning.{judged_of, program_of};
ghost use Rattle.xdr.specs.Wrote.{Wrote};

use kinds::call::CallHeader;
use kinds::numbers::{Message, Procedure};
use xdr::write::put_words;

// A program: its number, its lowest and highest version, and its last procedure, as a call may hold any number in their places.
#[derive(Clone, Copy)]
pub struct Program {
    pub number: u32,
    pub lowest: u32,
    pub highest: u32,
    pub last: u32,
}

impl Program {
    // NFS version 3.
    pub fn nfs() -> Program
        ensures { program_of result ≡ nfs }
    {
        Program {
            number: Message::PROGRAM,
            lowest: Message::VERSION,
            highest: Message::VERSION,
            last: Procedure::COMMIT,
        }
    }
}

// An accept_stat: why the procedure of an accepted call does not run.
#[derive(Clone, Copy, Debug, PartialEq, Eq)]
pub struct AcceptStat(pub u32);

impl AcceptStat {
    pub const PROG_UNAVAIL: AcceptStat = AcceptStat(Message::PROG_UNAVAIL);

    pub const PROG_MISMATCH: AcceptStat = AcceptStat(Message::PROG_MISMATCH);

    pub const PROC_UNAVAIL: AcceptStat = AcceptStat(Message::PROC_UNAVAIL);

    pub const GARBAGE_ARGS: AcceptStat = AcceptStat(Message::GARBAGE_ARGS);
}

// Whether the procedure of a call runs, or the accept_stat.
#[tactic(auto, unfolding(spec::specs::Rpc::judge))]
pub fn judge(p: Program, h: CallHeader) -> Result<(), AcceptStat>
    ensures { judged_of result ≡ judge (program_of p) h }
{
    if h.program != p.number {
        return Err(AcceptStat::PROG_UNAVAIL);
    }
    if h.version < p.lowest || p.highest < h.version {
        return Err(AcceptStat::PROG_MISMATCH);
    }
    if p.last < h.procedure {
        return Err(AcceptStat::PROC_UNAVAIL);
    }
    Ok(())
}

// The reply to a call of another RPC version than 2.
#[tactic(auto, unfolding(spec::specs::Rpc::denied))]
pub fn put_denied(reply: &mut [u8], xid: u32) -> usize
    requires { 24 ≤ length reply.old }
    ensures { Wrote 24 reply.old reply.new 0 result (denied xid) }
{
    let ws = [
        xid,
        Message::REPLY,
        Message::DENIED,
        Message::RPC_MISMATCH,
        Message::RPC_VERSION,
        Message::RPC_VERSION,
    ];
    put_words(reply, 0, &ws)
}

// The head of an accepted reply. The accept_stat is the number that the reply holds: SUCCESS, or that of an AcceptStat.
pub fn put_head(reply: &mut [u8], xid: u32, stat: u32) -> usize
    requires { 24 ≤ length reply.old }
    ensures { Wrote 24 reply.old reply.new 0 result (head xid stat) }
{
    let ws = [xid, Message::REPLY, Message::ACCEPTED, 0, 0, stat];
    put_words(reply, 0, &ws)
}

// The reply to a call whose procedure does not run: an accept_stat other than SUCCESS, and for PROG_MISMATCH the versions.
#[tactic(auto, using(xdr::proofs::Wrote::sized), unfolding(spec::specs::Rpc::accepted, spec::specs::Rpc::mismatch))]
pub fn put_stopped(reply: &mut [u8], p: Program, xid: u32, stat: u32) -> usize
    requires { 32 ≤ length reply.old }
    ensures { Wrote (length (accepted xid stat (mismatch (program_of p) stat))) reply.old reply.new 0 result (accepted xid stat (mismatch (program_of p) stat)) }
{
    let next = put_head(reply, xid, stat);
    if stat == Message::PROG_MISMATCH {
        let ws = [p.lowest, p.highest];
        return put_words(reply, next, &ws);
    }
    next
}
