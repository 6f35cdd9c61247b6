// What REMOVE, RMDIR and RENAME do: their checks, their edits of the store, and their result.
ghost use Rattle.std.specs.Prelude.{◌≡◌, ◌+◌, ◌<◌, ◌≤◌, length};
ghost use Rattle.kinds.specs.Numbers.{most_name_bytes};
ghost use Rattle.spec.specs.Edits.{remove_name};
ghost use Rattle.spec.specs.Image.{objects};
ghost use Rattle.spec.specs.Procedures.{cut};
ghost use Rattle.spec.specs.Procedures.Attributes.{edited};
ghost use Rattle.spec.specs.Procedures.Names.{touch_directory};
ghost use Rattle.spec.specs.Procedures.Removal.{remove, rmdir, rename_edit, fail_renaming, renamed_to, rename};
ghost use Rattle.laws.proofs.GoodRecords.{GoodRecords, StillGood, GoodClock};
ghost use Rattle.laws.proofs.Valid.{Valid};
ghost use Rattle.results.specs.Meaning.{result_of};
ghost use Rattle.results.specs.Writable.{Writable};
ghost use Rattle.results.specs.Does.{Does};
ghost use Rattle.check_rename.specs.Meaning.{onto_of};
ghost use Rattle.edit_entries.specs.Records.{RemovableAt, RenamableAt};

use check_handles::failure::{fail_changing, handle_change};
use check_remove::{check_remove, check_rmdir};
use check_rename::{Onto, check_rename};
use edit_entries::{remove_edit, rename_edit};
use kinds::call::{NameIn, Part};
use kinds::numbers::{NameNumber, ObjectNumber, Status};
use kinds::object::Context;
use results::{ObjectChange, Reply};
use store_attributes::before;

// The edit, and the directory's change.
fn remove_entry(store: &mut [u8], context: Context, d: ObjectNumber, n: NameNumber) -> Reply
    requires good_records { GoodRecords store.old }
    requires removable_at { RemovableAt store.old d.0 n.0 }
    requires still_good { StillGood store.old (touch_directory (remove_name store.old context.clock n.0) context d.0) }
    ensures { Does (edited store.old d.0 (touch_directory (remove_name store.old context.clock n.0) context d.0)) result store.new }
{
    let earlier = before(store, d);
    remove_edit(store, context, d, n);
    let change = ObjectChange {
        before: earlier,
        object: d,
    };
    Reply::Changed(Status::OK, change)
}

#[tactic(auto, unfolding(spec::specs::Procedures::Removal::remove, spec::specs::Procedures::Removal::remove_from))]
pub fn remove(store: &mut [u8], context: Context, call: &[u8], p: NameIn) -> Reply
    requires valid { Valid store.old }
    requires good_records { GoodRecords store.old }
    requires good_clock { GoodClock context.clock }
    requires length_in_bounds { p.directory.start + p.directory.length ≤ length call.now }
    requires length_in_bounds_2 { p.name.start + p.name.length ≤ length call.now }
    ensures { Does (remove store.old context (cut call.now p.directory) (cut call.now p.name)) result store.new }
{
    match check_remove(store, call, p) {
        Ok((d, n)) => remove_entry(store, context, d, n),
        Err(status) => fail_changing(store, call, p.directory, status),
    }
}

// Not one function with remove: only the match is shared, and a function for both would take the check and its procedure of the specification.
#[tactic(auto, unfolding(spec::specs::Procedures::Removal::rmdir, spec::specs::Procedures::Removal::remove_from))]
pub fn rmdir(store: &mut [u8], context: Context, call: &[u8], p: NameIn) -> Reply
    requires valid { Valid store.old }
    requires good_records { GoodRecords store.old }
    requires good_clock { GoodClock context.clock }
    requires length_in_bounds { p.directory.start + p.directory.length ≤ length call.now }
    requires length_in_bounds_2 { p.name.start + p.name.length ≤ length call.now }
    ensures { Does (rmdir store.old context (cut call.now p.directory) (cut call.now p.name)) result store.new }
{
    match check_rmdir(store, call, p) {
        Ok((d, n)) => remove_entry(store, context, d, n),
        Err(status) => fail_changing(store, call, p.directory, status),
    }
}

// A failure of RENAME shows each of the two directories whose handle is live.
fn fail_renaming(store: &[u8], call: &[u8], source: Part, target: Part, status: Status) -> Reply
    requires good_records { GoodRecords store.now }
    requires length_in_bounds { source.start + source.length ≤ length call.now }
    requires length_in_bounds_2 { target.start + target.length ≤ length call.now }
    ensures result_value { result_of store.now result ≡ fail_renaming store.now (cut call.now source) (cut call.now target) status.0 }
    ensures writable { Writable store.now result }
{
    let from = handle_change(store, call, source);
    let to = handle_change(store, call, target);
    if from.is_none() && to.is_none() {
        return Reply::Dead(status);
    }
    Reply::Renamed(status, from, to)
}

// The edit, and both directories' changes.
fn rename_entry(
    store: &mut [u8],
    context: Context,
    d: ObjectNumber,
    e: ObjectNumber,
    n: NameNumber,
    onto: Onto,
    call: &[u8],
    name: Part,
) -> Reply
    requires good_records { GoodRecords store.old }
    requires d_bound { d.0 < objects store.old }
    requires e_bound { e.0 < objects store.old }
    requires renamable_at { RenamableAt store.old context.clock d.0 e.0 n.0 (onto_of onto) }
    requires length_le_most_name_bytes { name.length ≤ most_name_bytes }
    requires length_in_bounds { name.start + name.length ≤ length call.now }
    requires still_good { StillGood store.old (rename_edit store.old context d.0 e.0 n.0 (onto_of onto) (cut call.now name)) }
    ensures { Does (renamed_to store.old d.0 e.0 (rename_edit store.old context d.0 e.0 n.0 (onto_of onto) (cut call.now name))) result store.new }
{
    let from = before(store, d);
    let to = before(store, e);
    rename_edit(store, context, d, e, n, onto, call, name);
    let source = ObjectChange {
        before: from,
        object: d,
    };
    let target = ObjectChange {
        before: to,
        object: e,
    };
    Reply::Renamed(Status::OK, Some(source), Some(target))
}

#[tactic(auto, unfolding(spec::specs::Procedures::Removal::rename))]
pub fn rename(store: &mut [u8], context: Context, call: &[u8], p: NameIn, q: NameIn) -> Reply
    requires valid { Valid store.old }
    requires good_records { GoodRecords store.old }
    requires good_clock { GoodClock context.clock }
    requires length_in_bounds { p.directory.start + p.directory.length ≤ length call.now }
    requires length_in_bounds_2 { p.name.start + p.name.length ≤ length call.now }
    requires length_in_bounds_3 { q.directory.start + q.directory.length ≤ length call.now }
    requires length_in_bounds_4 { q.name.start + q.name.length ≤ length call.now }
    ensures { Does (rename store.old context (cut call.now p.directory) (cut call.now p.name) (cut call.now q.directory) (cut call.now q.name)) result store.new }
{
    match check_rename(store, call, p, q) {
        Ok(at) => rename_entry(
            store, context, at.source, at.target, at.name, at.onto, call, q.name,
        ),
        Err(status) => fail_renaming(store, call, p.directory, q.directory, status),
    }
}
