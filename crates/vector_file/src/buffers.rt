// The buffers that the rows fill and the entries are lent, and the digest of a buffer.
ghost use Rattle.std.specs.Prelude.{◌+◌, ◌<◌, ◌≤◌};

use crate::numbers::Numbers;

// The room for each buffer.
pub const STORE_ROOM: usize = 535829;

pub const OLD_ROOM: usize = 535061;

pub const CALL_ROOM: usize = 10000;

pub const REPLY_ROOM: usize = 33800;

pub const TABLE_ROOM: usize = 33056;

pub type Reply = [u8; REPLY_ROOM];

// The last place of a reply space.
pub const LAST_PLACE: usize = REPLY_ROOM - 1;

// The table of numbers, the buffers, and the reply that is wanted. How much is lent of each buffer is a number of the table, since a row of the file
// sets it.
#[derive(Drop)]
pub struct Buffers {
    pub numbers: Numbers,
    pub store: [u8; STORE_ROOM],
    pub call: [u8; CALL_ROOM],
    pub reply: Reply,
    pub want: Reply,
    pub old: [u8; OLD_ROOM],
    pub table: [u8; TABLE_ROOM],
}

// How many bytes of two reply spaces are compared at a time.
const GROUP: usize = 200;

// Whether the group of bytes from `from` differs. Reads them all, many at a time: no byte ends the loop.
fn differs(a: &Reply, b: &Reply, from: usize) -> bool
    requires { from + 200 ≤ 33800 }
{
    let mut other = false;
    for i in from..from + GROUP {
        other |= a[i] != b[i];
    }
    other
}

// The first place at which two reply spaces differ, or their last. `position` over the two takes several times as long.
pub fn first_difference(a: &Reply, b: &Reply) -> usize
    ensures { result < 33800 }
{
    for k in 0..REPLY_ROOM / GROUP {
        let from = GROUP * k;
        if differs(a, b, from) {
            for i in from..from + GROUP {
                if a[i] != b[i] {
                    return i;
                }
            }
        }
    }
    LAST_PLACE
}

// The two lanes of a digest.
#[derive(Clone, Copy)]
pub struct Lanes {
    pub first: u32,
    pub second: u32,
}

// The digest of a buffer.
pub fn digest(bytes: &[u8]) -> Lanes {
    let mut first: u32 = 2166136261;
    let mut second: u32 = 1;
    for byte in bytes {
        let byte = u32::from(*byte);
        first = first.wrapping_mul(16777619).wrapping_add(byte);
        second = second.wrapping_mul(2246822519).wrapping_add(byte + 1);
    }
    Lanes { first, second }
}
