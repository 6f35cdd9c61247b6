// Big-endian numbers in byte slices; bytes copied, cleared, compared and tested for zero; the smaller and the larger of two numbers.
#![tactic(auto)]

ghost use Rattle.std.specs.Prelude.{◌≡◌, ◌+◌, ◌<◌, ◌≤◌, min, max, reverse, length, replicate};
ghost use Rattle.spec.specs.Bytes.{be_at, overlay, bytes_of, part, same_bytes, pairs};
ghost use Rattle.spec.specs.Check.{is_zero};
ghost use Rattle.wire.specs.LowFirst.{low_first};

pub mod names; // the names "." and ".."
pub mod hash; // numbers for a hash

// The smaller of two numbers.
pub fn smaller(a: usize, b: usize) -> usize
    ensures { result ≡ min a b }
{
    a.min(b)
}

// The larger of two numbers.
pub fn larger(a: usize, b: usize) -> usize
    ensures { result ≡ max a b }
{
    a.max(b)
}

// The number in the two bytes from `at`. With `u16::from_be_bytes` a MOUNT call on a full store takes 8.7 % more instructions: four numbers are no longer
// read at once.
pub fn get_u16(s: &[u8], at: usize) -> u16
    requires { at + 2 ≤ length s.now }
    ensures { result ≡ be_at s.now at 2 }
{
    (s[at] as u32 * 256 + s[at + 1] as u32) as u16
}

// The number in the four bytes from `at`.
pub fn get_u32(s: &[u8], at: usize) -> u32
    requires { at + 4 ≤ length s.now }
    ensures { result ≡ be_at s.now at 4 }
{
    u32::from_be_bytes([s[at], s[at + 1], s[at + 2], s[at + 3]])
}

// Writes v into the two bytes from `at`. This, put_u32 and put_u64 are a line each: one function over the type would take a trait of `to_be_bytes` for it.
pub fn put_u16(s: &mut [u8], at: usize, v: u16)
    requires { at + 2 ≤ length s.old }
    ensures { s.new ≡ overlay s.old at (bytes_of 2 v) }
{
    s[at..at + 2].copy_from_slice(&v.to_be_bytes());
}

// Writes v into the four bytes from `at`.
pub fn put_u32(s: &mut [u8], at: usize, v: u32)
    requires { at + 4 ≤ length s.old }
    ensures { s.new ≡ overlay s.old at (bytes_of 4 v) }
{
    s[at..at + 4].copy_from_slice(&v.to_be_bytes());
}

// The number in the eight bytes from `at`.
pub fn get_u64(s: &[u8], at: usize) -> u64
    requires { at + 8 ≤ length s.now }
    ensures { result ≡ be_at s.now at 8 }
{
    u64::from_be_bytes([
        s[at],
        s[at + 1],
        s[at + 2],
        s[at + 3],
        s[at + 4],
        s[at + 5],
        s[at + 6],
        s[at + 7],
    ])
}

// Writes v into the eight bytes from `at`.
pub fn put_u64(s: &mut [u8], at: usize, v: u64)
    requires { at + 8 ≤ length s.old }
    ensures { s.new ≡ overlay s.old at (bytes_of 8 v) }
{
    s[at..at + 8].copy_from_slice(&v.to_be_bytes());
}

// How many bytes are copied at a time.
const PIECE: usize = 16;

// Copies 16 bytes of src from `from` into dst from `at`: all are read before the first is written, so that the compiler may move them at once.
fn copy_piece(dst: &mut [u8], at: usize, src: &[u8], from: usize)
    requires at_in_bounds { at + 16 ≤ length dst.old }
    requires from_in_bounds { from + 16 ≤ length src.now }
    ensures { dst.new ≡ overlay dst.old at (part src.now from 16) }
{
    let a = get_u64(src, from);
    let b = get_u64(src, from + 8);
    put_u64(dst, at, a);
    put_u64(dst, at + 8, b);
}

// Copies the len bytes of src from `from` into dst from `at`. Of the library's copy of len bytes, a number that the compiler does not know, it makes a
// call of memmove, and nothing outside the libraries is called but memset.
pub fn copy_bytes(dst: &mut [u8], at: usize, src: &[u8], from: usize, len: usize)
    requires len_in_bounds { at + len ≤ length dst.old }
    requires len_in_bounds_2 { from + len ≤ length src.now }
    ensures { dst.new ≡ overlay dst.old at (part src.now from len) }
{
    let pieces = len / PIECE;
    for k in 0..pieces {
        copy_piece(dst, at + PIECE * k, src, from + PIECE * k);
    }
    for i in PIECE * pieces..len {
        dst[at + i] = src[from + i];
    }
}

// Makes the len bytes of dst from `at` zero.
pub fn clear_bytes(dst: &mut [u8], at: usize, len: usize)
    requires { at + len ≤ length dst.old }
    ensures { dst.new ≡ overlay dst.old at (replicate len 0) }
{
    dst[at..at + len].fill(0);
}

// Whether the n bytes from `at` are zero. Reads them all, many at a time: no byte ends the loop.
pub fn is_zero(s: &[u8], at: usize, n: usize) -> bool
    requires { at + n ≤ length s.now }
    ensures { result ≡ is_zero (part s.now at n) }
{
    let mut other = false;
    for x in &s[at..at + n] {
        other = other | (*x != 0);
    }
    !other
}

// What a comparison of bytes says: how many pairs were compared, and whether all bytes are the same. Every answer has both, so that neither an Option nor
// a Result fits.
#[derive(Clone, Copy)]
pub struct Compared {
    pub pairs: usize,
    pub same: bool,
}

// Compares the four bytes of a from `at` with those of b from `from`, pair by pair, up to the first difference.
fn compare_four(a: &[u8], at: usize, b: &[u8], from: usize) -> Compared
    requires at_in_bounds { at + 4 ≤ length a.now }
    requires from_in_bounds { from + 4 ≤ length b.now }
    ensures same_value { result.same ≡ same_bytes (part a.now at 4) (part b.now from 4) }
    ensures pairs_value { result.pairs ≡ pairs (part a.now at 4) (part b.now from 4) }
{
    if a[at] != b[from] {
        return Compared {
            pairs: 1,
            same: false,
        };
    }
    if a[at + 1] != b[from + 1] {
        return Compared {
            pairs: 2,
            same: false,
        };
    }
    if a[at + 2] != b[from + 2] {
        return Compared {
            pairs: 3,
            same: false,
        };
    }
    let same = a[at + 3] == b[from + 3];
    Compared { pairs: 4, same }
}

// Compares the len bytes of a from `at` with those of b from `from`, pair by pair, up to the first difference. No byte behind it is
// read (document 02, E4), so that whole words are not compared. Four in a row are written out, and the loop goes on by four: with a loop over single bytes
// alone, a LOOKUP of the last name of a full store takes 29 % more instructions.
pub fn compare_bytes(a: &[u8], at: usize, b: &[u8], from: usize, len: usize) -> Compared
    requires len_in_bounds { at + len ≤ length a.now }
    requires len_in_bounds_2 { from + len ≤ length b.now }
    ensures same_value { result.same ≡ same_bytes (part a.now at len) (part b.now from len) }
    ensures pairs_value { result.pairs ≡ pairs (part a.now at len) (part b.now from len) }
{
    let mut i = 0;
    while len - i >= 4 {
        let four = compare_four(a, at + i, b, from + i);
        i += four.pairs;
        if !four.same {
            return Compared {
                pairs: i,
                same: false,
            };
        }
    }
    for k in i..len {
        if a[at + k] != b[from + k] {
            return Compared {
                pairs: k + 1,
                same: false,
            };
        }
    }
    Compared {
        pairs: len,
        same: true,
    }
}
