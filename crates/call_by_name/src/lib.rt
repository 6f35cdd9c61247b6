// The arguments of the procedures whose first argument is a name in a directory.
#![tactic(auto)]

ghost use Rattle.std.specs.Prelude.{◌≡◌};
ghost use Rattle.kinds.specs.Reading.{read_of};
ghost use Rattle.spec.specs.Arguments.{create_arguments, mkdir_arguments, rename_arguments, whole, arguments};
ghost use Rattle.call_by_name.specs.First.{NameFirst};

use call_end::finish;
use call_types::types::{how, name_in, settable};
use kinds::call::{Arguments, Cursor, NameIn};
use kinds::numbers::Procedure;
use kinds::reading::Read;

// CREATE3args after the name.
fn create(s: &[u8], c: Cursor, place: NameIn) -> Read<Arguments>
    ensures { read_of result ≡ whole (create_arguments place) s.now c.at }
{
    let (manner, c) = how(s, c)?;
    finish(s, c, Arguments::Create(place, manner))
}

// MKDIR3args after the name.
fn mkdir(s: &[u8], c: Cursor, place: NameIn) -> Read<Arguments>
    ensures { read_of result ≡ whole (mkdir_arguments place) s.now c.at }
{
    let (attributes, c) = settable(s, c)?;
    finish(s, c, Arguments::Mkdir(place, attributes))
}

// RENAME3args after the old name.
fn rename(s: &[u8], c: Cursor, old: NameIn) -> Read<Arguments>
    ensures { read_of result ≡ whole (rename_arguments old) s.now c.at }
{
    let (new, c) = name_in(s, c)?;
    finish(s, c, Arguments::Rename(old, new))
}

// The arguments of LOOKUP, CREATE, MKDIR, REMOVE, RMDIR or RENAME, which end the call.
#[tactic(auto, unfolding(spec::specs::Arguments::arguments, spec::specs::Arguments::form))]
pub fn of_name(s: &[u8], c: Cursor, procedure: u32) -> Read<Arguments>
    requires { NameFirst procedure }
    ensures { read_of result ≡ arguments procedure s.now c.at }
{
    let (place, c) = name_in(s, c)?;
    match procedure {
        Procedure::LOOKUP => finish(s, c, Arguments::Lookup(place)),
        Procedure::CREATE => create(s, c, place),
        Procedure::MKDIR => mkdir(s, c, place),
        Procedure::REMOVE => finish(s, c, Arguments::Remove(place)),
        Procedure::RMDIR => finish(s, c, Arguments::Rmdir(place)),
        _ => rename(s, c, place),
    }
}
