// The attributes that a call may set, those that CREATE gives, and the ctime that a call may ask for.
#![tactic(auto)]

ghost use Rattle.std.specs.Prelude.{◌≡◌};
ghost use Rattle.spec.specs.Edits.{only_ctime};
ghost use Rattle.spec.specs.Procedures.Attributes.{is_given, size_set, number_over, bad_time, bad_attributes, differs};
ghost use Rattle.spec.specs.Procedures.Names.{settable_in};

use kinds::call::{How, SetTime, Settable};
use kinds::numbers::Limit;
use kinds::object::Time;

// Whether a size is given.
pub fn is_given(size: Option<u64>) -> bool
    ensures { result ≡ is_given size }
{
    size.is_some()
}

// The size that is given, or the old one.
pub fn size_set(size: Option<u64>, old: u64) -> u64
    ensures { result ≡ size_set size old }
{
    size.unwrap_or(old)
}

// Whether a number is given that is over the most.
fn number_over(most: u32, number: Option<u32>) -> bool
    ensures { result ≡ number_over most number }
{
    number.is_some_and(|n| most < n)
}

// Whether a time of the client is given whose nanoseconds make a second or more.
fn bad_time(time: SetTime) -> bool
    ensures { result ≡ bad_time time }
{
    matches!(time, SetTime::ToClient(t) if Limit::NANOSECONDS_END <= t.nanoseconds)
}

// Whether an attribute is given that no object may have.
#[tactic(auto, unfolding(spec::specs::Procedures::Attributes::bad_attributes))]
pub fn bad_attributes(a: Settable) -> bool
    ensures { result ≡ bad_attributes a }
{
    number_over(Limit::MOST_MODE, a.mode)
        || bad_time(a.atime)
        || bad_time(a.mtime)
        || Limit::MOST_FILE_BYTES < size_set(a.size, 0)
}

// Whether the guard's ctime is not the object's.
pub fn differs(guard: Option<Time>, ctime: Time) -> bool
    ensures { result ≡ differs guard ctime }
{
    guard.is_some_and(|t| t != ctime)
}

// Sets ctime alone.
pub fn only_ctime() -> Settable
    ensures { result ≡ only_ctime }
{
    Settable {
        mode: None,
        uid: None,
        gid: None,
        size: None,
        atime: SetTime::Keep,
        mtime: SetTime::Keep,
    }
}

// The attributes that CREATE gives; EXCLUSIVE gives none.
pub fn settable_in(manner: How) -> Settable
    ensures { result ≡ settable_in manner }
{
    match manner {
        How::Unchecked(a) | How::Guarded(a) => a,
        How::Exclusive(_) => only_ctime(),
    }
}
