// What LINK does: its checks, its edit of the store, and its result.
#![tactic(auto)]

ghost use Rattle.std.specs.Prelude.{◌≡◌, ◌+◌, ◌≤◌, length};
ghost use Rattle.kinds.specs.Numbers.{most_name_bytes};
ghost use Rattle.spec.specs.Procedures.{cut};
ghost use Rattle.spec.specs.Procedures.Link.{link_edit, fail_linking, linked_to, link};
ghost use Rattle.laws.proofs.GoodRecords.{GoodRecords, StillGood, GoodClock};
ghost use Rattle.laws.proofs.Valid.{Valid};
ghost use Rattle.results.specs.Meaning.{result_of};
ghost use Rattle.results.specs.Writable.{Writable};
ghost use Rattle.results.specs.Does.{Does};
ghost use Rattle.edit_entries.specs.Records.{LinkableAt};

use check_handles::failure::{handle_change, handle_object};
use check_link::check_link;
use edit_entries::link_edit;
use kinds::call::{NameIn, Part};
use kinds::numbers::{NameNumber, ObjectNumber, Status};
use kinds::object::Context;
use results::{ObjectChange, Reply};
use store_attributes::before;

// A failure shows the file and the directory, each where its handle is live.
// Not one function with act_remove's fail_renaming: other types, another variant of Reply and another clause, so that all three would be parameters.
fn fail_linking(store: &[u8], call: &[u8], file: Part, directory: Part, status: Status) -> Reply
    requires good_records { GoodRecords store.now }
    requires length_in_bounds { file.start + file.length ≤ length call.now }
    requires length_in_bounds_2 { directory.start + directory.length ≤ length call.now }
    ensures result_value { result_of store.now result ≡ fail_linking store.now (cut call.now file) (cut call.now directory) status.0 }
    ensures writable { Writable store.now result }
{
    let object = handle_object(store, call, file);
    let change = handle_change(store, call, directory);
    if object.is_none() && change.is_none() {
        return Reply::Dead(status);
    }
    Reply::Linked(status, object, change)
}

// The edit, the file and the directory's change.
fn link_entry(
    store: &mut [u8],
    context: Context,
    o: ObjectNumber,
    d: ObjectNumber,
    n: NameNumber,
    call: &[u8],
    name: Part,
) -> Reply
    requires good_records { GoodRecords store.old }
    requires linkable_at { LinkableAt store.old o.0 d.0 n.0 }
    requires length_le_most_name_bytes { name.length ≤ most_name_bytes }
    requires length_in_bounds { name.start + name.length ≤ length call.now }
    requires still_good { StillGood store.old (link_edit store.old context o.0 d.0 n.0 (cut call.now name)) }
    ensures { Does (linked_to store.old o.0 d.0 (link_edit store.old context o.0 d.0 n.0 (cut call.now name))) result store.new }
{
    let earlier = before(store, d);
    link_edit(store, context, o, d, n, call, name);
    let change = ObjectChange {
        before: earlier,
        object: d,
    };
    Reply::Linked(Status::OK, Some(o), Some(change))
}

#[tactic(auto, unfolding(spec::specs::Procedures::Link::link))]
pub fn link(store: &mut [u8], context: Context, call: &[u8], file: Part, p: NameIn) -> Reply
    requires valid { Valid store.old }
    requires good_records { GoodRecords store.old }
    requires good_clock { GoodClock context.clock }
    requires length_in_bounds { file.start + file.length ≤ length call.now }
    requires length_in_bounds_2 { p.directory.start + p.directory.length ≤ length call.now }
    requires length_in_bounds_3 { p.name.start + p.name.length ≤ length call.now }
    ensures { Does (link store.old context (cut call.now file) (cut call.now p.directory) (cut call.now p.name)) result store.new }
{
    match check_link(store, call, file, p) {
        Ok(at) => link_entry(store, context, at.file, at.directory, at.name, call, p.name),
        Err(status) => fail_linking(store, call, file, p.directory, status),
    }
}
