// SETATTR.
ghost use Rattle.std.specs.Prelude.{◌≡◌, cond, ◌+◌, ◌≤◌, length};
ghost use Rattle.spec.specs.Procedures.{cut};
ghost use Rattle.spec.specs.Procedures.Attributes.{is_given, or_server, size_touches, resize_to, setattr_edit, setattr};
ghost use Rattle.laws.proofs.GoodRecords.{GoodRecords};
ghost use Rattle.laws.proofs.SetAttributes.{FitsSettable};
ghost use Rattle.store_blocks.specs.Blocks.{UsedMap};
ghost use Rattle.store_blocks.specs.Ready.{Ready};
ghost use Rattle.results.specs.Does.{Does};
ghost use Rattle.act_change.specs.Makable.{Sizable};

use crate::setting::check_setattr;
use check_handles::failure::fail_changing;
use check_settable::is_given;
use edit_attributes::{forget_verifier, set_attributes};
use edit_size::size::resize;
use kinds::call::{Part, SetTime, Settable};
use kinds::numbers::{Limit, ObjectNumber, Status};
use kinds::object::{Context, Time};
use results::{ObjectChange, Reply};
use store_attributes::before;

// A time that the server sets where none is given.
fn or_server(time: SetTime) -> SetTime
    ensures { result ≡ or_server time }
{
    match time {
        SetTime::Keep => SetTime::ToServer,
        given => given,
    }
}

// The mtime that is set: with a size one is always set.
fn touched(size: Option<u64>, mtime: SetTime) -> SetTime
    ensures { result ≡ cond (is_given size) (or_server mtime) mtime }
{
    if is_given(size) {
        or_server(mtime)
    } else {
        mtime
    }
}

// The attributes that SETATTR sets: a size sets mtime too.
#[tactic(auto, unfolding(spec::specs::Procedures::Attributes::size_touches))]
fn size_touches(a: Settable) -> Settable
    ensures { result ≡ size_touches a }
{
    Settable {
        mtime: touched(a.size, a.mtime),
        ..a
    }
}

// Gives a file the size, where one is given. The map says which blocks are used.
pub fn resize_to(
    store: &mut [u8],
    used: &[u8; Limit::MOST_BLOCKS],
    o: ObjectNumber,
    size: Option<u64>,
)
    requires good_records { GoodRecords store.old }
    requires used_map { UsedMap store.old used.now }
    requires sizable { Sizable store.old o.0 size }
    ensures { store.new ≡ resize_to store.old o.0 size }
{
    let Some(n) = size else {
        return;
    };
    resize(store, used, o, n as usize);
}

// What SETATTR does to the store.
#[tactic(auto, unfolding(spec::specs::Procedures::Attributes::setattr_edit))]
fn setattr_edit(
    store: &mut [u8],
    used: &[u8; Limit::MOST_BLOCKS],
    context: Context,
    o: ObjectNumber,
    a: Settable,
)
    requires good_records { GoodRecords store.old }
    requires used_map { UsedMap store.old used.now }
    requires sizable { Sizable store.old o.0 a.size }
    ensures { store.new ≡ setattr_edit store.old context o.0 a }
{
    resize_to(store, used, o, a.size);
    set_attributes(store, context.clock, o, size_touches(a));
    forget_verifier(store, o);
}

// SETATTR: the object as it was and as it is, or the status of the check that failed.
pub fn setattr(
    store: &mut [u8],
    used: &[u8; Limit::MOST_BLOCKS],
    context: Context,
    call: &[u8],
    h: Part,
    a: Settable,
    g: Option<Time>,
) -> Reply
    requires ready { Ready store.old used.now context }
    requires fits_settable { FitsSettable a }
    requires length_in_bounds { h.start + h.length ≤ length call.now }
    ensures { Does (setattr store.old context (cut call.now h) a g) result store.new }
{
    let o = match check_setattr(store, used, call, h, a, g) {
        Ok(o) => o,
        Err(status) => return fail_changing(store, call, h, status),
    };
    let earlier = before(store, o);
    setattr_edit(store, used, context, o, a);
    let change = ObjectChange {
        before: earlier,
        object: o,
    };
    Reply::Changed(Status::OK, change)
}
