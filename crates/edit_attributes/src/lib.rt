// The first two edits of the store: an object's attributes and times, and its verifier forgotten.
#![tactic(auto)]

ghost use Rattle.std.specs.Prelude.{◌≡◌, ◌+◌, ◌-◌, ◌≤◌, ◌++◌, length};
ghost use Rattle.kinds.specs.Layout.{mode_offset, size_offset, object_length};
ghost use Rattle.spec.specs.Bytes.{overlay, bytes_of};
ghost use Rattle.spec.specs.Image.{object_start};
ghost use Rattle.spec.specs.Edits.{number_set, time_set, with_attributes, set_attributes, mtime_and_ctime, forget_verifier};

use kinds::call::{SetTime, Settable};
use kinds::layout::ObjectRecord;
use kinds::numbers::ObjectNumber;
use kinds::object::{Object, Time};
use store_records::counts::object_start;
use store_records::object::{
    atime_of, gid_of, mode_of, mtime_of, save_time, save_times, save_verifier, uid_of,
};

// A number that a call may set.
pub fn number_set(a: Option<u32>, old: u32) -> u32
    ensures { result ≡ number_set a old }
{
    a.unwrap_or(old)
}

// A time that a call may set to the clock or to its own.
pub fn time_set(clock: Time, a: SetTime, old: Time) -> Time
    ensures { result ≡ time_set clock a old }
{
    match a {
        SetTime::Keep => old,
        SetTime::ToServer => clock,
        SetTime::ToClient(t) => t,
    }
}

// An object with the attributes that a call sets, but for its size, and the clock as its ctime.
pub fn with_attributes(clock: Time, a: Settable, v: Object) -> Object
    ensures { result ≡ with_attributes clock a v }
{
    Object {
        mode: number_set(a.mode, v.mode),
        uid: number_set(a.uid, v.uid),
        gid: number_set(a.gid, v.gid),
        atime: time_set(clock, a.atime, v.atime),
        mtime: time_set(clock, a.mtime, v.mtime),
        ctime: clock,
        ..v
    }
}

// Where uid and gid stand after the mode.
const UID_AFTER_MODE: usize = ObjectRecord::UID - ObjectRecord::MODE;

const GID_AFTER_MODE: usize = ObjectRecord::GID - ObjectRecord::MODE;

// Writes the mode, uid and gid of an object.
fn save_owner(store: &mut [u8], at: usize, mode: u32, uid: u32, gid: u32)
    requires { at + (size_offset - mode_offset) ≤ length store.old }
    ensures { store.new ≡ overlay store.old at (bytes_of 4 mode ++ bytes_of 4 uid ++ bytes_of 4 gid) }
{
    wire::put_u32(store, at, mode);
    wire::put_u32(store, at + UID_AFTER_MODE, uid);
    wire::put_u32(store, at + GID_AFTER_MODE, gid);
}

// Sets attributes, but for the size. The other bytes of the record stay.
pub fn set_attributes(store: &mut [u8], clock: Time, o: ObjectNumber, a: Settable)
    requires { object_start o.0 + object_length ≤ length store.old }
    ensures { store.new ≡ set_attributes store.old clock o.0 a }
{
    let mode = number_set(a.mode, mode_of(store, o));
    let uid = number_set(a.uid, uid_of(store, o));
    let gid = number_set(a.gid, gid_of(store, o));
    let atime = time_set(clock, a.atime, atime_of(store, o));
    let mtime = time_set(clock, a.mtime, mtime_of(store, o));
    let at = object_start(store, o);
    save_owner(store, at + ObjectRecord::MODE, mode, uid, gid);
    save_times(store, at + ObjectRecord::ATIME, atime, mtime, clock);
}

// Sets mtime and ctime to the clock. The other bytes of the record stay.
pub fn touch(store: &mut [u8], clock: Time, o: ObjectNumber)
    requires { object_start o.0 + object_length ≤ length store.old }
    ensures { store.new ≡ set_attributes store.old clock o.0 mtime_and_ctime }
{
    let at = object_start(store, o);
    save_time(store, at + ObjectRecord::MTIME, clock);
    save_time(store, at + ObjectRecord::CTIME, clock);
}

// Forgets an object's verifier. The other bytes of the record stay.
pub fn forget_verifier(store: &mut [u8], o: ObjectNumber)
    requires { object_start o.0 + object_length ≤ length store.old }
    ensures { store.new ≡ forget_verifier store.old o.0 }
{
    let at = object_start(store, o);
    save_verifier(store, at + ObjectRecord::VERIFIER, 0, 0);
}
