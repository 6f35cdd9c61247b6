// What a name in a call may be.
ghost use Rattle.std.specs.Prelude.{◌≡◌, ◌+◌, ◌≤◌, length};
ghost use Rattle.spec.specs.Names.{good_byte, good_bytes, is_dot, is_dot_dot, is_dots};
ghost use Rattle.spec.specs.Handles.{check_name};
ghost use Rattle.spec.specs.Procedures.{cut};
ghost use Rattle.check_handles.specs.Meaning.{text_checked_of};

use kinds::call::Part;
use kinds::numbers::{Limit, Status};

// Neither 0 nor "/".
#[tactic(auto, unfolding(spec::specs::Names::good_byte))]
fn good_byte(x: u8) -> bool
    ensures { result ≡ good_byte x }
{
    x != 0 && x != b'/'
}

// Whether no byte is 0 or "/".
fn good_bytes(text: &[u8]) -> bool
    ensures { result ≡ good_bytes text.now }
{
    text.iter().all(|&x| good_byte(x))
}

// An empty name ACCES, over 32 bytes NAMETOOLONG, with a byte 0 or "/" ACCES.
pub fn check_name(call: &[u8], name: Part) -> Result<(), Status>
    requires { name.start + name.length ≤ length call.now }
    ensures { text_checked_of result ≡ check_name (cut call.now name) }
{
    let start = name.start;
    let n = name.length;
    if n == 0 {
        return Err(Status::ACCES);
    }
    if Limit::MOST_NAME_BYTES < n {
        return Err(Status::NAMETOOLONG);
    }
    if !good_bytes(&call[start..start + n]) {
        return Err(Status::ACCES);
    }
    Ok(())
}

// The three below are those of wire::names, of a Part: callers there that have no Part, as fsck_names, give a place and a length.
// Whether the name is ".".
pub fn is_dot(call: &[u8], name: Part) -> bool
    requires { name.start + name.length ≤ length call.now }
    ensures { result ≡ is_dot (cut call.now name) }
{
    wire::names::is_dot(call, name.start, name.length)
}

// Whether the name is "..".
pub fn is_dot_dot(call: &[u8], name: Part) -> bool
    requires { name.start + name.length ≤ length call.now }
    ensures { result ≡ is_dot_dot (cut call.now name) }
{
    wire::names::is_dot_dot(call, name.start, name.length)
}

// Whether the name is "." or "..".
pub fn is_dots(call: &[u8], name: Part) -> bool
    requires { name.start + name.length ≤ length call.now }
    ensures { result ≡ is_dots (cut call.now name) }
{
    wire::names::is_dots(call, name.start, name.length)
}
