// Bytes, decimal numbers and strings at a place of the reply space; each answers the place after it.
ghost use Rattle.std.specs.Prelude.{◌≡◌, [], ◌∷◌, ◌+◌, ◌≤◌, ◌<◌, length};
ghost use Rattle.spec.specs.Bytes.{part, zeros, padding, opaque_bytes};
ghost use Rattle.mount_spec.specs.Replies.{stop, decimal, dotted};
ghost use Rattle.xdr.specs.Wrote.{Wrote};

use xdr::read::padding;
use xdr::write::{put_bytes, put_word};

// One byte.
fn put_byte(reply: &mut [u8], at: usize, x: u8) -> usize
    requires { at + 1 ≤ length reply.old }
    ensures { Wrote 1 reply.old reply.new at result (x ∷ []) }
{
    reply[at] = x;
    at + 1
}

// Zero bytes, n of them.
fn put_zeros(reply: &mut [u8], at: usize, n: usize) -> usize
    requires { at + n ≤ length reply.old }
    ensures { Wrote n reply.old reply.new at result (zeros n) }
{
    wire::clear_bytes(reply, at, n);
    at + n
}

// The digit of a number below 10.
fn digit(n: u8) -> u8
    requires { n < 10 }
    ensures { result ≡ 0x30 + n }
{
    b'0' + n
}

// How many digits a byte has in decimal.
fn decimal_length(n: u8) -> usize
    ensures { (result ≡ length (decimal n)) × (result ≤ 3) }
{
    if n < 10 {
        return 1;
    }
    if n < 100 {
        return 2;
    }
    3
}

// A byte in decimal.
fn put_decimal(reply: &mut [u8], at: usize, n: u8) -> usize
    requires { at + length (decimal n) ≤ length reply.old }
    ensures { Wrote (length (decimal n)) reply.old reply.new at result (decimal n) }
{
    if n < 10 {
        return put_byte(reply, at, digit(n));
    }
    if n < 100 {
        let last = put_byte(reply, at, digit(n / 10));
        return put_byte(reply, last, digit(n % 10));
    }
    let middle = put_byte(reply, at, digit(n / 100));
    let last = put_byte(reply, middle, digit(n / 10 % 10));
    put_byte(reply, last, digit(n % 10))
}

// A full stop, and a byte in decimal.
fn put_next(reply: &mut [u8], at: usize, n: u8) -> usize
    requires { at + (1 + length (decimal n)) ≤ length reply.old }
    ensures { Wrote (1 + length (decimal n)) reply.old reply.new at result (stop ∷ decimal n) }
{
    let next = put_byte(reply, at, b'.');
    put_decimal(reply, next, n)
}

// How many bytes a host has as dotted decimal.
fn dotted_length(host: u32) -> usize
    ensures { (result ≡ length (dotted host)) × (result ≤ 15) }
{
    let [a, b, c, d] = host.to_be_bytes();
    decimal_length(a) + decimal_length(b) + decimal_length(c) + decimal_length(d) + 3
}

// A host as dotted decimal.
#[tactic(auto, unfolding(mount_spec::specs::Replies::dotted))]
fn put_dotted(reply: &mut [u8], at: usize, host: u32) -> usize
    requires { at + length (dotted host) ≤ length reply.old }
    ensures { Wrote (length (dotted host)) reply.old reply.new at result (dotted host) }
{
    let [a, b, c, d] = host.to_be_bytes();
    let second = put_decimal(reply, at, a);
    let third = put_next(reply, second, b);
    let fourth = put_next(reply, third, c);
    put_next(reply, fourth, d)
}

// A host as dotted decimal, as a string.
pub fn put_host(reply: &mut [u8], at: usize, host: u32) -> usize
    requires { at + 20 ≤ length reply.old }
    ensures wrote { Wrote (length (opaque_bytes (dotted host))) reply.old reply.new at result (opaque_bytes (dotted host)) }
    ensures upper_bound { result ≤ at + 20 }
{
    let n = dotted_length(host);
    let text = put_word(reply, at, n as u32);
    let end = put_dotted(reply, text, host);
    put_zeros(reply, end, padding(n))
}

// The len bytes of src from `from`, as a string.
pub fn put_opaque(reply: &mut [u8], at: usize, src: &[u8], from: usize, len: usize) -> usize
    requires len_bound { len < 4294967296 }
    requires len_in_bounds { from + len ≤ length src.now }
    requires len_in_bounds_2 { at + (4 + (len + padding len)) ≤ length reply.old }
    ensures { Wrote (4 + (len + padding len)) reply.old reply.new at result (opaque_bytes (part src.now from len)) }
{
    let text = put_word(reply, at, len as u32);
    let end = put_bytes(reply, text, src, from, len);
    put_zeros(reply, end, padding(len))
}
