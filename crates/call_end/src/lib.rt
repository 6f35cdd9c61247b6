// The end of a call, after its arguments.
#![tactic(auto)]

ghost use Rattle.std.specs.Prelude.{◌≡◌};
ghost use Rattle.kinds.specs.Reading.{read_of};
ghost use Rattle.call_end.specs.Ends.{ends};

use kinds::call::Cursor;
use kinds::reading::Read;
use xdr::read::end;

// What was read of the arguments, where the call ends after it.
pub fn finish<A: Copy>(s: &[u8], c: Cursor, read: A) -> Read<A>
    ensures { read_of result ≡ ends read s.now c.at }
{
    let (_, c) = end(s, c)?;
    Ok((read, c))
}
