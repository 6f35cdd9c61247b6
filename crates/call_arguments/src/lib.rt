// The arguments of a call (RFC 1813), by the number of its procedure.
#![tactic(auto)]

ghost use Rattle.std.specs.Prelude.{◌≡◌};
ghost use Rattle.kinds.specs.Reading.{read_of};
ghost use Rattle.spec.specs.Arguments.{arguments};

use call_by_handle::of_handle;
use call_by_name::of_name;
use call_end::finish;
use kinds::call::{Arguments, Cursor};
use kinds::numbers::Procedure;
use kinds::reading::Read;
use reader::Reader;

// The arguments of a procedure, 0 to 21, which end the call; those of a procedure that is not served stay unread.
#[tactic(auto, unfolding(spec::specs::Arguments::arguments, spec::specs::Arguments::form))]
fn arguments_at(s: &[u8], at: usize, procedure: u32) -> Read<Arguments>
    ensures { read_of result ≡ arguments procedure s.now at }
{
    let c = Cursor { at };
    match procedure {
        Procedure::NULL => finish(s, c, Arguments::Null),
        Procedure::LOOKUP
        | Procedure::CREATE
        | Procedure::MKDIR
        | Procedure::REMOVE
        | Procedure::RMDIR
        | Procedure::RENAME => of_name(s, c, procedure),
        Procedure::GETATTR
        | Procedure::SETATTR
        | Procedure::ACCESS
        | Procedure::READ
        | Procedure::WRITE
        | Procedure::LINK
        | Procedure::READDIR
        | Procedure::FSSTAT
        | Procedure::FSINFO
        | Procedure::PATHCONF
        | Procedure::COMMIT => of_handle(s, c, procedure),
        _ => Ok((Arguments::Unserved, c)),
    }
}

// The arguments at a reader's place.
pub fn next_arguments<'a>(r: Reader<'a>, procedure: u32) -> Read<Arguments>
    ensures { read_of result ≡ arguments procedure r.entry.call.now r.entry.at }
{
    arguments_at(r.call, r.at, procedure)
}
