// The XDR types that arguments are made of, each read at a cursor.
ghost use Rattle.std.specs.Prelude.{◌≡◌};
ghost use Rattle.kinds.specs.Reading.{read_of};
ghost use Rattle.spec.specs.Arguments.{handle, unbounded, name_in, time, set_number, set_size, set_time, settable, guard, how};

use kinds::call::{Cursor, How, NameIn, Part, SetTime, Settable};
use kinds::numbers::Limit;
use kinds::object::Time;
use kinds::reading::Read;
use xdr::read::{choice, flag, long, opaque, word};

// The maximum of opaque data that has none.
const NO_MAXIMUM: usize = 4294967295;

// nfs_fh3.
#[tactic(auto, unfolding(spec::specs::Arguments::handle))]
pub fn handle(s: &[u8], c: Cursor) -> Read<Part>
    ensures { read_of result ≡ handle s.now c.at }
{
    opaque(s, c, Limit::MOST_HANDLE_BYTES)
}

// filename3, and the data of WRITE.
#[tactic(auto, unfolding(spec::specs::Arguments::unbounded))]
pub fn unbounded(s: &[u8], c: Cursor) -> Read<Part>
    ensures { read_of result ≡ unbounded s.now c.at }
{
    opaque(s, c, NO_MAXIMUM)
}

// diropargs3.
#[tactic(auto, unfolding(spec::specs::Arguments::name_in))]
pub fn name_in(s: &[u8], c: Cursor) -> Read<NameIn>
    ensures { read_of result ≡ name_in s.now c.at }
{
    let (directory, c) = handle(s, c)?;
    let (name, c) = unbounded(s, c)?;
    Ok((NameIn { directory, name }, c))
}

// nfstime3.
#[tactic(auto, unfolding(spec::specs::Arguments::time))]
pub fn time(s: &[u8], c: Cursor) -> Read<Time>
    ensures { read_of result ≡ time s.now c.at }
{
    let (seconds, c) = word(s, c)?;
    let (nanoseconds, c) = word(s, c)?;
    Ok((
        Time {
            seconds,
            nanoseconds,
        },
        c,
    ))
}

// set_mode3, set_uid3, set_gid3.
#[tactic(auto, unfolding(spec::specs::Arguments::set_number))]
pub fn set_number(s: &[u8], c: Cursor) -> Read<Option<u32>>
    ensures { read_of result ≡ set_number s.now c.at }
{
    let (given, c) = flag(s, c)?;
    if !given {
        return Ok((None, c));
    }
    let (n, c) = word(s, c)?;
    Ok((Some(n), c))
}

// set_size3. Not one function with set_number and guard: they share three lines, and it would take the reader of the value as a closure, with clauses on it.
#[tactic(auto, unfolding(spec::specs::Arguments::set_size))]
pub fn set_size(s: &[u8], c: Cursor) -> Read<Option<u64>>
    ensures { read_of result ≡ set_size s.now c.at }
{
    let (given, c) = flag(s, c)?;
    if !given {
        return Ok((None, c));
    }
    let (n, c) = long(s, c)?;
    Ok((Some(n), c))
}

// set_atime, set_mtime.
#[tactic(auto, unfolding(spec::specs::Arguments::set_time))]
pub fn set_time(s: &[u8], c: Cursor) -> Read<SetTime>
    ensures { read_of result ≡ set_time s.now c.at }
{
    let (manner, c) = choice(s, c, 2)?;
    match manner {
        0 => Ok((SetTime::Keep, c)),
        1 => Ok((SetTime::ToServer, c)),
        _ => {
            let (t, c) = time(s, c)?;
            Ok((SetTime::ToClient(t), c))
        }
    }
}

// sattr3.
#[tactic(auto, unfolding(spec::specs::Arguments::settable))]
pub fn settable(s: &[u8], c: Cursor) -> Read<Settable>
    ensures { read_of result ≡ settable s.now c.at }
{
    let (mode, c) = set_number(s, c)?;
    let (uid, c) = set_number(s, c)?;
    let (gid, c) = set_number(s, c)?;
    let (size, c) = set_size(s, c)?;
    let (atime, c) = set_time(s, c)?;
    let (mtime, c) = set_time(s, c)?;
    Ok((
        Settable {
            mode,
            uid,
            gid,
            size,
            atime,
            mtime,
        },
        c,
    ))
}

// sattrguard3.
#[tactic(auto, unfolding(spec::specs::Arguments::guard))]
pub fn guard(s: &[u8], c: Cursor) -> Read<Option<Time>>
    ensures { read_of result ≡ guard s.now c.at }
{
    let (given, c) = flag(s, c)?;
    if !given {
        return Ok((None, c));
    }
    let (t, c) = time(s, c)?;
    Ok((Some(t), c))
}

// createhow3.
#[tactic(auto, unfolding(spec::specs::Arguments::how))]
pub fn how(s: &[u8], c: Cursor) -> Read<How>
    ensures { read_of result ≡ how s.now c.at }
{
    let (mode, c) = choice(s, c, 2)?;
    if mode == 2 {
        let (verifier, c) = long(s, c)?;
        return Ok((How::Exclusive(verifier), c));
    }
    let (attributes, c) = settable(s, c)?;
    if mode == 0 {
        Ok((How::Unchecked(attributes), c))
    } else {
        Ok((How::Guarded(attributes), c))
    }
}
