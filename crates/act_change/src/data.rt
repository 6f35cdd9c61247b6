// WRITE.
ghost use Rattle.std.specs.Prelude.{◌+◌, ◌≤◌, length};
ghost use Rattle.spec.specs.Procedures.{cut};
ghost use Rattle.spec.specs.Procedures.Data.{write};
ghost use Rattle.results.specs.Does.{Does};
ghost use Rattle.store_blocks.specs.Ready.{Ready};

use crate::setting::check_write;
use act_write::write_checked;
use check_handles::failure::fail_changing;
use kinds::call::Part;
use kinds::numbers::Limit;
use kinds::object::Context;
use results::Reply;

// WRITE: the file as it was and as it is, the bytes written and the verifier, or the status of the check that failed.
#[tactic(auto, unfolding(spec::specs::Procedures::Data::write))]
pub fn write(
    store: &mut [u8],
    used: &[u8; Limit::MOST_BLOCKS],
    context: Context,
    call: &[u8],
    h: Part,
    offset: u64,
    count: u32,
    bytes: Part,
) -> Reply
    requires ready { Ready store.old used.now context }
    requires length_in_bounds { h.start + h.length ≤ length call.now }
    requires length_in_bounds_2 { bytes.start + bytes.length ≤ length call.now }
    ensures { Does (write store.old context (cut call.now h) offset count (cut call.now bytes)) result store.new }
{
    match check_write(store, used, call, h, offset, count, bytes) {
        Ok(o) => write_checked(store, used, context, o, offset, call, count, bytes),
        Err(status) => fail_changing(store, call, h, status),
    }
}
