// That the root is never named, a file by at most 16 records, and any other object by at most one. `parents` has for each object the number of the
// directory of its first record and 1, or 0 where nothing names it; `links` has the number of its records.
// They are two arrays, as the callers of the check lend them: a struct here would hold two references, and each contract would name both maps as before.
ghost use Rattle.std.specs.Prelude.{◌≡◌, ◌+◌, ◌<◌};
ghost use Rattle.spec.specs.Image.{objects, names, object_at};
ghost use Rattle.spec.specs.Check.{most_names};
ghost use Rattle.laws.proofs.Valid.{Framed, UsedName};
ghost use Rattle.fsck_objects.specs.Told.{Told};
ghost use Rattle.fsck_names.specs.Named.{NamedBy, LinkedBy, CountsFurther};

use crate::record::{child_of, directory_of};
use kinds::numbers::{Limit, NameNumber, ObjectNumber};
use store_records::object::is_regular;

// How many names object o may have.
fn most_names(store: &[u8], o: ObjectNumber) -> usize
    requires framed { Framed store.now }
    requires o_bound { o.0 < objects store.now }
    ensures { result ≡ most_names (object_at store.now o.0).kind }
{
    if is_regular(store, o) {
        return Limit::MOST_LINKS as usize;
    }
    1
}

// Counts a further name of object o; false where it may have no more.
fn count_further(store: &[u8], o: ObjectNumber, links: &mut [u8; Limit::MOST_OBJECTS]) -> bool
    requires framed { Framed store.now }
    requires o_bound { o.0 < objects store.now }
    ensures { CountsFurther store.now o.0 result links.old links.new }
{
    let i = o.0;
    let count = usize::from(links[i]);
    if count >= most_names(store, o) {
        return false;
    }
    links[i] = (count + 1) as u8;
    true
}

// Marks the parent of the object that record n names, and counts the record; false where that is the root, or has as many names as it may have.
pub fn mark_child(
    store: &[u8],
    p: usize,
    n: NameNumber,
    parents: &mut [u8; Limit::MOST_OBJECTS],
    links: &mut [u8; Limit::MOST_OBJECTS],
) -> bool
    requires framed { Framed store.now }
    requires p_value { p ≡ objects store.now }
    requires n_bound { n.0 < names store.now }
    requires used_name { UsedName store.now n.0 }
    requires named_by { NamedBy store.now n.0 parents.old }
    requires linked_by { LinkedBy store.now n.0 links.old }
    ensures { Told result store.now (NamedBy store.now (n.0 + 1) parents.new × LinkedBy store.now (n.0 + 1) links.new) }
{
    let o = child_of(store, p, n);
    let child = o.0;
    if child == 0 {
        return false;
    }
    if parents[child] != 0 {
        return count_further(store, o, links);
    }
    let directory = directory_of(store, p, n);
    parents[child] = (directory.0 + 1) as u8;
    links[child] = 1;
    true
}
