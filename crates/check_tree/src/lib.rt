// Whether a directory has entries, and whether one lies within another.
#![tactic(auto)]

ghost use Rattle.std.specs.Prelude.{◌≡◌, ◌<◌};
ghost use Rattle.spec.specs.Image.{objects};
ghost use Rattle.spec.specs.Procedures.Removal.{has_entries, is_within};
ghost use Rattle.laws.proofs.GoodRecords.{GoodRecords};

use kinds::numbers::{NameNumber, ObjectNumber};
use store_records::counts::{name_count, object_count};
use store_records::object::is_directory;
use store_search::name::{is_in, parent_table};

// Whether some name is in a directory.
pub fn has_entries(store: &[u8], directory: ObjectNumber) -> bool
    requires { GoodRecords store.now }
    ensures { result ≡ has_entries store.now directory.0 }
{
    for i in 0..name_count(store) {
        if is_in(store, NameNumber(i), directory) {
            return true;
        }
    }
    false
}

// Whether `o` is a directory, and `directory` is `o` or lies below it. The way up from `directory` ends at the root, which is in itself.
pub fn is_within(store: &[u8], o: ObjectNumber, directory: ObjectNumber) -> bool
    requires good_records { GoodRecords store.now }
    requires o_bound { o.0 < objects store.now }
    requires directory_bound { directory.0 < objects store.now }
    ensures { result ≡ is_within store.now o.0 directory.0 }
{
    if !is_directory(store, o) {
        return false;
    }
    let parents = parent_table(store);
    let mut at = directory.0;
    for _ in 0..object_count(store) {
        if at == o.0 {
            return true;
        }
        let parent = parents[at] as usize;
        if parent == at {
            return false;
        }
        at = parent;
    }
    false
}
