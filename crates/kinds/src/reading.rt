// What reading one XDR field answers: its value and where reading goes on, or the byte at which a field starts that cannot be read.
ghost use Rattle.std.specs.Prelude.{◌≡◌};
ghost use Rattle.kinds.specs.Reading.{place_of, read_of};

use crate::call::Cursor;

// The byte of the call at which a field starts that cannot be read.
#[derive(Clone, Copy, Debug, PartialEq, Eq)]
pub struct BadField(pub usize);

pub type Read<T> = Result<(T, Cursor), BadField>;

// The place of a refusal; where there is none, where reading goes on.
pub fn place_of<T: Copy>(r: Read<T>) -> usize
    ensures { result ≡ place_of (read_of r) }
{
    match r {
        Ok((_, c)) => c.at,
        Err(BadField(place)) => place,
    }
}
