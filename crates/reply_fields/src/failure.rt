// A failure with no live handle in a reply.
ghost use Rattle.std.specs.Prelude.{◌≡◌, ◌∷◌, ◌+◌, ◌*◌, ◌≤◌, length, get_or, replicate};
ghost use Rattle.kinds.specs.Numbers.{zero_words};
ghost use Rattle.spec.specs.Bytes.{words};
ghost use Rattle.xdr.specs.Wrote.{Wrote};

use kinds::numbers::{Procedure, Status};
use xdr::write::{put_word, put_words};

// How many zero words follow the status, by procedure.
fn zero_words(procedure: usize) -> usize
    requires { procedure ≤ 21 }
    ensures { result ≡ get_or zero_words procedure 0 }
{
    Procedure::ZERO_WORDS[procedure]
}

// The status and its zero words.
pub fn put_dead(reply: &mut [u8], at: usize, procedure: usize, status: Status) -> usize
    requires procedure_bound { procedure ≤ 21 }
    requires at_in_bounds { at + 20 ≤ length reply.old }
    ensures { Wrote (4 + 4 * get_or zero_words procedure 0) reply.old reply.new at result (words (status.0 ∷ replicate (get_or zero_words procedure 0) 0)) }
{
    let n = zero_words(procedure);
    let next = put_word(reply, at, status.0);
    let zeros = [0u32; 4];
    put_words(reply, next, &zeros[0..n])
}
