// The reply to a call, written once every test has passed.
ghost use Rattle.std.specs.Prelude.{◌≡◌, ◌≤◌, length};
ghost use Rattle.kinds.specs.Mount.{least_mount_reply_bytes};
ghost use Rattle.kinds.specs.Numbers.{most_call_bytes};
ghost use Rattle.kinds.specs.Reading.{place_of, read_of};
ghost use Rattle.laws.proofs.GoodRecords.{GoodRecords};
ghost use Rattle.mount_spec.specs.Arguments.{mount_arguments};
ghost use Rattle.mount_spec.specs.Procedures.{act_mount};
ghost use Rattle.mount_spec.specs.Serve.{mount3, finish_mount, respond_mount};
ghost use Rattle.mount_laws.proofs.Paths.{PathWithin};
ghost use Rattle.rpc.specs.Meaning.{named_procedure, program_of};
ghost use Rattle.mount_reply.specs.Fits.{Fits};
ghost use Rattle.mount3.specs.Sends.{SendsMount};

use kinds::call::CallHeader;
use kinds::mount::{Mount, MountArguments, MountProcedure};
use kinds::numbers::Answer;
use mount_act::run_mount;
use mount_reply::result::put_mount_result;
use rpc::admit::{Heard, admit, replied};
use rpc::outcome::Program;

// MOUNT version 3: the numbers of MOUNT, as those of NFS stand in rpc.
fn program() -> Program
    ensures { program_of result ≡ mount3 }
{
    Program {
        number: Mount::PROGRAM,
        lowest: Mount::VERSION,
        highest: Mount::VERSION,
        last: MountProcedure::EXPORT,
    }
}

// Runs a procedure, and writes its reply. Not one function with that of entry_reply: the procedures, the buffers they write and the promise differ, and
// what is left in common is `replied`.
fn finish(
    store: &[u8],
    table: &mut [u8],
    reply: &mut [u8],
    host: u32,
    call: &[u8],
    h: CallHeader,
    a: MountArguments,
) -> Answer
    requires least_mount_reply_bytes_in_bounds { least_mount_reply_bytes ≤ length reply.old }
    requires good_records { GoodRecords store.now }
    requires fits { Fits table.old }
    requires path_within { PathWithin (length call.now) a }
    ensures { SendsMount (finish_mount store.now h (act_mount store.now table.old host call.now a)) result reply.old reply.new table.new }
{
    let r = run_mount(store, table, host, call, a);
    let next = put_mount_result(reply, store, table, h.xid, r);
    replied(next, 0)
}

// Answers a call that passed its tests: its procedure runs, or the reply says why it does not.
pub fn respond(
    store: &[u8],
    table: &mut [u8],
    reply: &mut [u8],
    host: u32,
    call: &[u8],
    heard: Heard<MountArguments>,
) -> Answer
    requires least_mount_reply_bytes_in_bounds { least_mount_reply_bytes ≤ length reply.old }
    requires good_records { GoodRecords store.now }
    requires fits { Fits table.old }
    requires read_value { read_of heard.arguments ≡ mount_arguments (named_procedure heard.header) call.now heard.after.at }
    requires read_bound { place_of (read_of heard.arguments) ≤ most_call_bytes }
    ensures { SendsMount (respond_mount store.now table.old host call.now heard.header heard.after.at) result reply.old reply.new table.new }
{
    match admit(reply, program(), heard) {
        Ok((h, a)) => finish(store, table, reply, host, call, h, a),
        Err(answer) => answer,
    }
}
