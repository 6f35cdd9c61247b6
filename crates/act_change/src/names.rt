// CREATE and MKDIR.
ghost use Rattle.std.specs.Prelude.{◌≡◌, ◌+◌, ◌≤◌, ◌<◌, length};
ghost use Rattle.spec.specs.Image.{objects};
ghost use Rattle.spec.specs.Edits.{with_verifier};
ghost use Rattle.spec.specs.Procedures.{cut};
ghost use Rattle.spec.specs.Procedures.Names.{new_object, new_file, new_edit, created_in, existing_edit, create, mkdir};
ghost use Rattle.laws.proofs.ArgumentRange.{FitsHow};
ghost use Rattle.laws.proofs.GoodRecords.{GoodRecords, GoodClock};
ghost use Rattle.laws.proofs.SetAttributes.{FitsSettable};
ghost use Rattle.store_blocks.specs.Blocks.{UsedMap};
ghost use Rattle.store_blocks.specs.Ready.{Ready};
ghost use Rattle.results.specs.Does.{Does};
ghost use Rattle.act_change.specs.Makable.{Sizable, Makable};

use crate::attributes::resize_to;
use check_create::check_create;
use check_handles::failure::fail_changing;
use check_make::checks::{Target, check_mkdir};
use check_settable::{only_ctime, settable_in};
use edit_attributes::{touch, with_attributes};
use edit_names::create_object;
use edit_size::size::resize;
use kinds::call::{How, NameIn, Part, Settable};
use kinds::numbers::{Kind, Limit, NameNumber, ObjectNumber};
use kinds::object::{Context, Object, Time};
use results::{ObjectChange, Reply};
use store_attributes::before;

// A new object: attributes that are not given are 0, times that are not given the clock.
#[tactic(auto, unfolding(spec::specs::Procedures::Names::new_object))]
fn new_object(clock: Time, kind: u32, a: Settable) -> Object
    ensures { result ≡ new_object clock kind a }
{
    let v = Object {
        kind,
        generation: 0,
        mode: 0,
        uid: 0,
        gid: 0,
        size: 0,
        atime: clock,
        mtime: clock,
        ctime: clock,
        blocks: [Limit::UNUSED_BLOCK; 16],
        verifier: 0,
        exclusive: 0,
    };
    with_attributes(clock, a, v)
}

// An object with another verifier and flag.
#[tactic(auto, unfolding(spec::specs::Edits::with_verifier))]
fn with_verifier(verifier: u64, flag: u32, v: Object) -> Object
    ensures { result ≡ with_verifier verifier flag v }
{
    Object {
        verifier,
        exclusive: flag,
        ..v
    }
}

// A new file; one made EXCLUSIVE keeps the verifier.
fn new_file(clock: Time, manner: How) -> Object
    ensures { result ≡ new_file clock manner }
{
    match manner {
        How::Unchecked(a) | How::Guarded(a) => new_object(clock, Kind::REGULAR, a),
        How::Exclusive(verifier) => {
            let v = new_object(clock, Kind::REGULAR, only_ctime());
            with_verifier(verifier, Limit::KEPT_FLAG, v)
        }
    }
}

// What CREATE and MKDIR do to the store for a new object.
#[tactic(auto, unfolding(spec::specs::Procedures::Names::new_edit))]
fn new_edit(
    store: &mut [u8],
    used: &[u8; Limit::MOST_BLOCKS],
    context: Context,
    v: Object,
    size: Option<u64>,
    o: ObjectNumber,
    n: NameNumber,
    d: ObjectNumber,
    call: &[u8],
    name: Part,
)
    requires good_records { GoodRecords store.old }
    requires used_map { UsedMap store.old used.now }
    requires length_in_bounds { name.start + name.length ≤ length call.now }
    requires makable { Makable store.old context v size o.0 n.0 d.0 (cut call.now name) }
    ensures { store.new ≡ new_edit store.old context v size o.0 n.0 d.0 (cut call.now name) }
{
    create_object(store, o, n, v, d, call, name);
    resize_to(store, used, o, size);
    touch(store, context.clock, d);
}

// What CREATE does to the store for a file that has the name: it obeys the size.
fn existing_edit(
    store: &mut [u8],
    used: &[u8; Limit::MOST_BLOCKS],
    context: Context,
    o: ObjectNumber,
    size: Option<u64>,
)
    requires good_records { GoodRecords store.old }
    requires used_map { UsedMap store.old used.now }
    requires sizable { Sizable store.old o.0 size }
    ensures { store.new ≡ existing_edit store.old context o.0 size }
{
    let Some(n) = size else {
        return;
    };
    resize(store, used, o, n as usize);
    touch(store, context.clock, o);
}

// Makes a new object in a directory, and shows it.
fn make_new(
    store: &mut [u8],
    used: &[u8; Limit::MOST_BLOCKS],
    context: Context,
    v: Object,
    size: Option<u64>,
    o: ObjectNumber,
    n: NameNumber,
    d: ObjectNumber,
    call: &[u8],
    name: Part,
) -> Reply
    requires good_records { GoodRecords store.old }
    requires used_map { UsedMap store.old used.now }
    requires length_in_bounds { name.start + name.length ≤ length call.now }
    requires makable { Makable store.old context v size o.0 n.0 d.0 (cut call.now name) }
    ensures { Does (created_in store.old (new_edit store.old context v size o.0 n.0 d.0 (cut call.now name)) d.0 o.0) result store.new }
{
    let earlier = before(store, d);
    new_edit(store, used, context, v, size, o, n, d, call, name);
    let change = ObjectChange {
        before: earlier,
        object: d,
    };
    Reply::Created(o, change)
}

// MKDIR: the new directory and the change of the one that it is in, or the status of the check that failed.
#[tactic(auto, unfolding(spec::specs::Procedures::Names::mkdir))]
pub fn mkdir(
    store: &mut [u8],
    used: &[u8; Limit::MOST_BLOCKS],
    context: Context,
    call: &[u8],
    place: NameIn,
    a: Settable,
) -> Reply
    requires ready { Ready store.old used.now context }
    requires fits_settable { FitsSettable a }
    requires length_in_bounds { place.directory.start + place.directory.length ≤ length call.now }
    requires length_in_bounds_2 { place.name.start + place.name.length ≤ length call.now }
    ensures { Does (mkdir store.old context (cut call.now place.directory) (cut call.now place.name) a) result store.new }
{
    match check_mkdir(store, used, call, place, a) {
        Ok(at) => make_new(
            store,
            used,
            context,
            new_object(context.clock, Kind::DIRECTORY, a),
            a.size,
            at.object,
            at.name,
            at.directory,
            call,
            place.name,
        ),
        Err(status) => fail_changing(store, call, place.directory, status),
    }
}

// Gives the file that has the name the size, where one is given, and shows it.
fn obey_size(
    store: &mut [u8],
    used: &[u8; Limit::MOST_BLOCKS],
    context: Context,
    d: ObjectNumber,
    o: ObjectNumber,
    size: Option<u64>,
) -> Reply
    requires good_records { GoodRecords store.old }
    requires used_map { UsedMap store.old used.now }
    requires good_clock { GoodClock context.clock }
    requires d_bound { d.0 < objects store.old }
    requires sizable { Sizable store.old o.0 size }
    ensures { Does (created_in store.old (existing_edit store.old context o.0 size) d.0 o.0) result store.new }
{
    let earlier = before(store, d);
    existing_edit(store, used, context, o, size);
    let change = ObjectChange {
        before: earlier,
        object: d,
    };
    Reply::Created(o, change)
}

// CREATE: the file and the change of its directory, or the status of the check that failed.
#[tactic(auto, unfolding(spec::specs::Procedures::Names::create))]
pub fn create(
    store: &mut [u8],
    used: &[u8; Limit::MOST_BLOCKS],
    context: Context,
    call: &[u8],
    place: NameIn,
    manner: How,
) -> Reply
    requires ready { Ready store.old used.now context }
    requires fits_how { FitsHow manner }
    requires length_in_bounds { place.directory.start + place.directory.length ≤ length call.now }
    requires length_in_bounds_2 { place.name.start + place.name.length ≤ length call.now }
    ensures { Does (create store.old context (cut call.now place.directory) (cut call.now place.name) manner) result store.new }
{
    let size = settable_in(manner).size;
    match check_create(store, used, call, place, manner) {
        Ok((d, Target::New(o, n))) => {
            let v = new_file(context.clock, manner);
            make_new(store, used, context, v, size, o, n, d, call, place.name)
        }
        Ok((d, Target::Existing(o))) => obey_size(store, used, context, d, o, size),
        Err(status) => fail_changing(store, call, place.directory, status),
    }
}
