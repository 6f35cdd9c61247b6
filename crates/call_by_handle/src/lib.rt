// The arguments of the procedures whose first argument is a handle.
#![tactic(auto)]

ghost use Rattle.std.specs.Prelude.{◌≡◌};
ghost use Rattle.kinds.specs.Reading.{read_of};
ghost use Rattle.spec.specs.Arguments.{setattr_arguments, access_arguments, read_arguments, write_arguments, link_arguments, readdir_arguments, commit_arguments, whole, arguments};
ghost use Rattle.call_by_handle.specs.First.{HandleFirst};

use call_end::finish;
use call_types::types::{guard, handle, name_in, settable, unbounded};
use kinds::call::{Arguments, Cursor, Part};
use kinds::numbers::Procedure;
use kinds::reading::Read;
use xdr::read::{choice, long, word};

// SETATTR3args after the handle.
fn setattr(s: &[u8], c: Cursor, object: Part) -> Read<Arguments>
    ensures { read_of result ≡ whole (setattr_arguments object) s.now c.at }
{
    let (attributes, c) = settable(s, c)?;
    let (given, c) = guard(s, c)?;
    finish(s, c, Arguments::Setattr(object, attributes, given))
}

// ACCESS3args after the handle.
fn access(s: &[u8], c: Cursor, object: Part) -> Read<Arguments>
    ensures { read_of result ≡ whole (access_arguments object) s.now c.at }
{
    let (bits, c) = word(s, c)?;
    finish(s, c, Arguments::Access(object, bits))
}

// READ3args after the handle.
fn read(s: &[u8], c: Cursor, file: Part) -> Read<Arguments>
    ensures { read_of result ≡ whole (read_arguments file) s.now c.at }
{
    let (offset, c) = long(s, c)?;
    let (count, c) = word(s, c)?;
    finish(s, c, Arguments::Read(file, offset, count))
}

// WRITE3args after the handle.
fn write(s: &[u8], c: Cursor, file: Part) -> Read<Arguments>
    ensures { read_of result ≡ whole (write_arguments file) s.now c.at }
{
    let (offset, c) = long(s, c)?;
    let (count, c) = word(s, c)?;
    let (_, c) = choice(s, c, 2)?;
    let (bytes, c) = unbounded(s, c)?;
    finish(s, c, Arguments::Write(file, offset, count, bytes))
}

// LINK3args after the handle.
fn link(s: &[u8], c: Cursor, file: Part) -> Read<Arguments>
    ensures { read_of result ≡ whole (link_arguments file) s.now c.at }
{
    let (place, c) = name_in(s, c)?;
    finish(s, c, Arguments::Link(file, place))
}

// READDIR3args after the handle.
fn readdir(s: &[u8], c: Cursor, directory: Part) -> Read<Arguments>
    ensures { read_of result ≡ whole (readdir_arguments directory) s.now c.at }
{
    let (cookie, c) = long(s, c)?;
    let (verifier, c) = long(s, c)?;
    let (count, c) = word(s, c)?;
    finish(s, c, Arguments::Readdir(directory, cookie, verifier, count))
}

// COMMIT3args after the handle.
fn commit(s: &[u8], c: Cursor, file: Part) -> Read<Arguments>
    ensures { read_of result ≡ whole (commit_arguments file) s.now c.at }
{
    let (_, c) = long(s, c)?;
    let (_, c) = word(s, c)?;
    finish(s, c, Arguments::Commit(file))
}

// The arguments of GETATTR, SETATTR, ACCESS, READ, WRITE, LINK, READDIR, FSSTAT, FSINFO, PATHCONF or COMMIT, which end the call.
#[tactic(auto, unfolding(spec::specs::Arguments::arguments, spec::specs::Arguments::form))]
pub fn of_handle(s: &[u8], c: Cursor, procedure: u32) -> Read<Arguments>
    requires { HandleFirst procedure }
    ensures { read_of result ≡ arguments procedure s.now c.at }
{
    let (object, c) = handle(s, c)?;
    match procedure {
        Procedure::GETATTR => finish(s, c, Arguments::Getattr(object)),
        Procedure::SETATTR => setattr(s, c, object),
        Procedure::ACCESS => access(s, c, object),
        Procedure::READ => read(s, c, object),
        Procedure::WRITE => write(s, c, object),
        Procedure::LINK => link(s, c, object),
        Procedure::READDIR => readdir(s, c, object),
        Procedure::FSSTAT => finish(s, c, Arguments::Fsstat(object)),
        Procedure::FSINFO => finish(s, c, Arguments::Fsinfo(object)),
        Procedure::PATHCONF => finish(s, c, Arguments::Pathconf(object)),
        _ => commit(s, c, object),
    }
}
