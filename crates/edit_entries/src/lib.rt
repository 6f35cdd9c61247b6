// What REMOVE, RMDIR, RENAME and LINK do to the store: an entry of a directory is removed, moved, put in the place of another or added, and times
// are set.
#![tactic(auto)]

ghost use Rattle.std.specs.Prelude.{◌≡◌, ◌+◌, ◌<◌, ◌≤◌, length};
ghost use Rattle.kinds.specs.Layout.{object_length};
ghost use Rattle.kinds.specs.Numbers.{most_name_bytes};
ghost use Rattle.spec.specs.Edits.{set_attributes, mtime_and_ctime, remove_name};
ghost use Rattle.spec.specs.Image.{object_start, names};
ghost use Rattle.spec.specs.Procedures.{cut};
ghost use Rattle.spec.specs.Procedures.Link.{link_edit};
ghost use Rattle.spec.specs.Procedures.Names.{touch_directory};
ghost use Rattle.spec.specs.Procedures.Removal.{move_edit, rename_edit};
ghost use Rattle.laws.proofs.ActGood.{Movable};
ghost use Rattle.laws.proofs.GoodRecords.{GoodRecords};
ghost use Rattle.laws.proofs.Valid.{Used};
ghost use Rattle.check_rename.specs.Meaning.{onto_of};
ghost use Rattle.edit_entries.specs.Records.{RemovableAt, RenamableAt, LinkableAt};

use check_rename::Onto;
use check_settable::only_ctime;
use edit_attributes::{set_attributes, touch};
use edit_names::{move_name, remove_object};
use kinds::call::Part;
use kinds::numbers::{NameNumber, ObjectNumber};
use kinds::object::{Context, Time};
use store_records::name::{clear_name, name_child, save_name};
use store_search::name::naming_count;

// Sets a directory's mtime and ctime.
fn touch_directory(store: &mut [u8], clock: Time, d: ObjectNumber)
    requires { object_start d.0 + object_length ≤ length store.old }
    ensures { store.new ≡ set_attributes store.old clock d.0 mtime_and_ctime }
{
    touch(store, clock, d);
}

// A name is removed. An object with other names keeps them, and its ctime is set; with its last name it is removed.
fn remove_name(store: &mut [u8], clock: Time, n: NameNumber)
    requires good_records { GoodRecords store.old }
    requires n_bound { n.0 < names store.old }
    requires used { Used store.old n.0 }
    ensures { store.new ≡ remove_name store.old clock n.0 }
{
    let o = name_child(store, n);
    if naming_count(store, o) > 1 {
        set_attributes(store, clock, o, only_ctime());
        clear_name(store, n);
    } else {
        remove_object(store, n);
    }
}

// A name is removed, and the directory's times are set.
pub fn remove_edit(store: &mut [u8], context: Context, d: ObjectNumber, n: NameNumber)
    requires good_records { GoodRecords store.old }
    requires removable_at { RemovableAt store.old d.0 n.0 }
    ensures { store.new ≡ touch_directory (remove_name store.old context.clock n.0) context d.0 }
{
    let clock = context.clock;
    remove_name(store, clock, n);
    touch_directory(store, clock, d);
}

// The name record is rewritten in place; the object's ctime and both directories' times are set.
fn move_edit(
    store: &mut [u8],
    context: Context,
    source: ObjectNumber,
    target: ObjectNumber,
    n: NameNumber,
    call: &[u8],
    name: Part,
)
    requires good_records { GoodRecords store.old }
    requires movable { Movable store.old source.0 target.0 n.0 }
    requires length_le_most_name_bytes { name.length ≤ most_name_bytes }
    requires length_in_bounds { name.start + name.length ≤ length call.now }
    ensures { store.new ≡ move_edit store.old context source.0 target.0 n.0 (cut call.now name) }
{
    let clock = context.clock;
    let child = name_child(store, n);
    move_name(store, n, target, call, name);
    set_attributes(store, clock, child, only_ctime());
    touch_directory(store, clock, source);
    touch_directory(store, clock, target);
}

// A name that is replaced is removed first; where the new name is one of the same object's, nothing is done.
pub fn rename_edit(
    store: &mut [u8],
    context: Context,
    source: ObjectNumber,
    target: ObjectNumber,
    n: NameNumber,
    onto: Onto,
    call: &[u8],
    name: Part,
)
    requires good_records { GoodRecords store.old }
    requires renamable_at { RenamableAt store.old context.clock source.0 target.0 n.0 (onto_of onto) }
    requires length_le_most_name_bytes { name.length ≤ most_name_bytes }
    requires length_in_bounds { name.start + name.length ≤ length call.now }
    ensures { store.new ≡ rename_edit store.old context source.0 target.0 n.0 (onto_of onto) (cut call.now name) }
{
    match onto {
        Onto::NewName => move_edit(store, context, source, target, n, call, name),
        Onto::SameObject => {}
        Onto::Replacing(m) => {
            remove_name(store, context.clock, m);
            move_edit(store, context, source, target, n, call, name);
        }
    }
}

// A name is added; the file's ctime and the directory's times are set.
pub fn link_edit(
    store: &mut [u8],
    context: Context,
    o: ObjectNumber,
    d: ObjectNumber,
    n: NameNumber,
    call: &[u8],
    name: Part,
)
    requires good_records { GoodRecords store.old }
    requires linkable_at { LinkableAt store.old o.0 d.0 n.0 }
    requires length_le_most_name_bytes { name.length ≤ most_name_bytes }
    requires length_in_bounds { name.start + name.length ≤ length call.now }
    ensures { store.new ≡ link_edit store.old context o.0 d.0 n.0 (cut call.now name) }
{
    let clock = context.clock;
    set_attributes(store, clock, o, only_ctime());
    save_name(store, n, d, o, call, name);
    touch_directory(store, clock, d);
}
