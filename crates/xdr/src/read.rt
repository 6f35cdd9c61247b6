// Reads one XDR field of a call at a cursor, and answers its value with the cursor after it, or the place of the refusal.
ghost use Rattle.std.specs.Prelude.{◌≡◌};
ghost use Rattle.kinds.specs.Reading.{read_of};
ghost use Rattle.spec.specs.Bytes.{padding};
ghost use Rattle.spec.specs.Xdr.{word, long, choice, flag, bytes, opaque, end};

use kinds::call::{Cursor, Part};
use kinds::reading::{BadField, Read};

// How many bytes pad n bytes to a multiple of four.
pub fn padding(n: usize) -> usize
    ensures { result ≡ padding n }
{
    (4 - n % 4) % 4
}

// The next n bytes, or the place where they do not all stand in the call.
#[tactic(auto, unfolding(spec::specs::Xdr::bytes))]
pub fn bytes(s: &[u8], c: Cursor, n: usize) -> Read<Part>
    ensures { read_of result ≡ bytes n s.now c.at }
{
    let at = c.at;
    if s.len() < at {
        return Err(BadField(at));
    }
    if s.len() - at < n {
        return Err(BadField(at));
    }
    Ok((
        Part {
            start: at,
            length: n,
        },
        Cursor { at: at + n },
    ))
}

// An unsigned int.
#[tactic(auto, unfolding(spec::specs::Xdr::word, spec::specs::Xdr::number, spec::specs::Xdr::bytes))]
pub fn word(s: &[u8], c: Cursor) -> Read<u32>
    ensures { read_of result ≡ word s.now c.at }
{
    let (_, next) = bytes(s, c, 4)?;
    Ok((wire::get_u32(s, c.at), next))
}

// An unsigned hyper, or 8 bytes of fixed-length opaque data as a number. Not one function with word: of its two lines each names the width.
#[tactic(auto, unfolding(spec::specs::Xdr::long, spec::specs::Xdr::number, spec::specs::Xdr::bytes))]
pub fn long(s: &[u8], c: Cursor) -> Read<u64>
    ensures { read_of result ≡ long s.now c.at }
{
    let (_, next) = bytes(s, c, 8)?;
    Ok((wire::get_u64(s, c.at), next))
}

// An enumeration of the numbers 0 to `top`.
#[tactic(auto, unfolding(spec::specs::Xdr::choice, spec::specs::Xdr::word, spec::specs::Xdr::number))]
pub fn choice(s: &[u8], c: Cursor, top: u32) -> Read<u32>
    ensures { read_of result ≡ choice top s.now c.at }
{
    let (n, next) = word(s, c)?;
    if n <= top {
        Ok((n, next))
    } else {
        Err(BadField(c.at))
    }
}

// A bool.
#[tactic(auto, unfolding(spec::specs::Xdr::flag))]
pub fn flag(s: &[u8], c: Cursor) -> Read<bool>
    ensures { read_of result ≡ flag s.now c.at }
{
    let (n, next) = choice(s, c, 1)?;
    Ok((n == 1, next))
}

// Variable-length opaque data of at most `most` bytes, with its padding, which may be any bytes.
pub fn opaque(s: &[u8], c: Cursor, most: usize) -> Read<Part>
    ensures { read_of result ≡ opaque most s.now c.at }
{
    let refused = Err(BadField(c.at));
    let Ok((n, c1)) = word(s, c) else {
        return refused;
    };
    let length = n as usize;
    if most < length {
        return refused;
    }
    // At once: the part and then its padding take 1 % more instructions of a small call.
    let rest = padding(length);
    let Ok((_, next)) = bytes(s, c1, length + rest) else {
        return refused;
    };
    let start = c1.at;
    Ok((Part { start, length }, next))
}

// The end of the call: nothing is left over.
#[tactic(auto, unfolding(spec::specs::Xdr::end))]
pub fn end(s: &[u8], c: Cursor) -> Read<()>
    ensures { read_of result ≡ end s.now c.at }
{
    if c.at != s.len() {
        return Err(BadField(c.at));
    }
    Ok(((), c))
}
