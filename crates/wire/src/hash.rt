// Numbers for a hash: a byte, eight bytes at once, and one number joined to another.
ghost use Rattle.std.specs.Prelude.{◌≡◌, ◌+◌, ◌<◌, ◌≤◌, length};
ghost use Rattle.wire.specs.Hash.{word_at, joined};

// A byte as a number.
pub fn index(x: u8) -> usize
    ensures { (result ≡ x) × (result < 256) }
{
    x as usize
}

// The number in the eight bytes from `at`, least significant first, unlike get_u64: one load for the compiler.
pub fn word_at(s: &[u8], at: usize) -> usize
    requires { at + 8 ≤ length s.now }
    ensures { result ≡ word_at s.now at }
{
    usize::from_le_bytes([
        s[at],
        s[at + 1],
        s[at + 2],
        s[at + 3],
        s[at + 4],
        s[at + 5],
        s[at + 6],
        s[at + 7],
    ])
}

// The 64 bits of x turned, the lowest 6 to the top, and w added.
pub fn join(x: usize, w: usize) -> usize
    ensures { result ≡ joined x w }
{
    x.rotate_right(6).wrapping_add(w)
}
