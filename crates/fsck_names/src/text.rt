// The bytes of a name.
ghost use Rattle.std.specs.Prelude.{◌≡◌, ◌&&◌, ◌+◌, ◌-◌, ◌≤◌, length};
ghost use Rattle.kinds.specs.Numbers.{most_name_bytes};
ghost use Rattle.spec.specs.Bytes.{part, same_bytes};
ghost use Rattle.spec.specs.Check.{is_zero};
ghost use Rattle.spec.specs.Names.{good_bytes, good_name};
ghost use Rattle.fsck_objects.specs.Objects.{Inside};

use kinds::numbers::Limit;

// Whether of the 32 bytes from `at` the first n are none of 0 and 0x2F, and the others 0. Reads them all, many at a time: no byte ends the
// loop.
fn text_passes(s: &[u8], inside: &[u8; 64], at: usize, n: usize) -> bool
    requires most_name_bytes_in_bounds { at + most_name_bytes ≤ length s.now }
    requires n_le_most_name_bytes { n ≤ most_name_bytes }
    requires inside { Inside inside.now }
    ensures { result ≡ good_bytes (part s.now at n) && is_zero (part s.now (at + n) (most_name_bytes - n)) }
{
    let from = Limit::MOST_NAME_BYTES - n;
    let mut other = false;
    for i in 0..Limit::MOST_NAME_BYTES {
        let x = s[at + i];
        other |= (x == 0x2F) | ((x == 0) == (inside[from + i] != 0));
    }
    !other
}

// Whether the n bytes from `at` are a name, where n is 1 to 32, and the others of 32 are 0.
pub fn good_text(s: &[u8], inside: &[u8; 64], at: usize, n: usize) -> bool
    requires most_name_bytes_in_bounds { at + most_name_bytes ≤ length s.now }
    requires le_n { 1 ≤ n }
    requires n_le_most_name_bytes { n ≤ most_name_bytes }
    requires inside { Inside inside.now }
    ensures { result ≡ good_name (part s.now at n) && is_zero (part s.now (at + n) (most_name_bytes - n)) }
{
    if !text_passes(s, inside, at, n) {
        return false;
    }
    !wire::names::is_dots(s, at, n)
}

// Whether the eight bytes from a are those from b.
fn same_word(s: &[u8], a: usize, b: usize) -> bool
    requires a_in_bounds { a + 8 ≤ length s.now }
    requires b_in_bounds { b + 8 ≤ length s.now }
    ensures { result ≡ same_bytes (part s.now a 8) (part s.now b 8) }
{
    wire::get_u64(s, a) == wire::get_u64(s, b)
}

// Whether the 32 bytes from a are those from b.
pub fn same_text(s: &[u8], a: usize, b: usize) -> bool
    requires most_name_bytes_in_bounds { a + most_name_bytes ≤ length s.now }
    requires most_name_bytes_in_bounds_2 { b + most_name_bytes ≤ length s.now }
    ensures { result ≡ same_bytes (part s.now a most_name_bytes) (part s.now b most_name_bytes) }
{
    let front = same_word(s, a, b) & same_word(s, a + 8, b + 8);
    let back = same_word(s, a + 16, b + 16) & same_word(s, a + 24, b + 24);
    front & back
}
