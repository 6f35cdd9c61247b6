// Free name records, the record that names an object, and the records in a directory.
ghost use Rattle.std.specs.Prelude.{◌≡◌, ◌&&◌, not, ◌+◌, ◌<◌, ◌≤◌, length};
ghost use Rattle.kinds.specs.Layout.{name_record_length};
ghost use Rattle.spec.specs.Count.{lowest};
ghost use Rattle.spec.specs.Image.{names, name_start, name_at};
ghost use Rattle.spec.specs.Room.{is_used_name, is_naming, namings, is_in, is_directory, available_name, subdirectories, parent};
ghost use Rattle.store_records.specs.Shaped.{Shaped, SoundNames};
ghost use Rattle.store_search.specs.Found.{found_name};
ghost use Rattle.store_search.specs.Parents.{ParentTable};

use kinds::layout::NameRecord;
use kinds::numbers::{Limit, NameNumber, ObjectNumber};
use store_records::counts::{name_count, names_start};
use store_records::name::{is_used_name, name_child, name_directory};
use store_records::object::is_directory;

fn is_free_name(store: &[u8], n: NameNumber) -> bool
    requires { name_start store.now n.0 + name_record_length ≤ length store.now }
    ensures { result ≡ not (is_used_name store.now n.0) }
{
    !is_used_name(store, n)
}

// The lowest-numbered free record.
pub fn find_free_name(store: &[u8]) -> Option<NameNumber>
    requires { Shaped store.now }
    ensures { found_name result ≡ available_name store.now }
{
    for n in 0..name_count(store) {
        if is_free_name(store, NameNumber(n)) {
            return Some(NameNumber(n));
        }
    }
    None
}

// Whether the record n, which starts at `at`, is used, and names an object.
fn is_naming(store: &[u8], n: NameNumber, at: usize, o: ObjectNumber) -> bool
    requires at_value { at ≡ name_start store.now n.0 }
    requires name_record_length_in_bounds { at + name_record_length ≤ length store.now }
    ensures { result ≡ is_naming store.now o.0 n.0 }
{
    let child = wire::get_u32(store, at + NameRecord::CHILD) as usize;
    if child != o.0 {
        return false;
    }
    wire::get_u32(store, at + NameRecord::LENGTH) != 0
}

// The lowest-numbered record that names an object.
pub fn find_naming(store: &[u8], o: ObjectNumber) -> Option<NameNumber>
    requires { Shaped store.now }
    ensures { found_name result ≡ lowest (names store.now) (is_naming store.now o.0) }
{
    let start = names_start(store);
    for i in 0..name_count(store) {
        let at = start + NameRecord::BYTES * i;
        if is_naming(store, NameNumber(i), at, o) {
            return Some(NameNumber(i));
        }
    }
    None
}

// The names of an object.
pub fn naming_count(store: &[u8], o: ObjectNumber) -> usize
    requires { Shaped store.now }
    ensures { result ≡ namings store.now o.0 }
{
    let start = names_start(store);
    let mut found = 0;
    for i in 0..name_count(store) {
        let at = start + NameRecord::BYTES * i;
        found += usize::from(is_naming(store, NameNumber(i), at, o));
    }
    found
}

// The directory that an object is in; the root, which has no name, is in itself.
pub fn parent_of(store: &[u8], o: ObjectNumber) -> ObjectNumber
    requires { Shaped store.now }
    ensures { result.0 ≡ parent store.now o.0 }
{
    match find_naming(store, o) {
        Some(n) => name_directory(store, n),
        None => ObjectNumber(0),
    }
}

// The directory that each object is in, as `parent_of` gives it. It goes from the last record to the first, so that of those that name an object
// the lowest-numbered decides.
pub fn parent_table(store: &[u8]) -> [u8; Limit::MOST_OBJECTS]
    requires shaped { Shaped store.now }
    requires sound_names { SoundNames store.now }
    ensures { ParentTable store.now result }
{
    let mut table = [0u8; Limit::MOST_OBJECTS];
    for n in (0..name_count(store)).rev() {
        if is_used_name(store, NameNumber(n)) {
            let child = name_child(store, NameNumber(n));
            let directory = name_directory(store, NameNumber(n));
            let o = child.0;
            table[o] = directory.0 as u8;
        }
    }
    table
}

// Whether a record is used, and in a directory.
#[tactic(auto, unfolding(spec::specs::Room::is_in))]
pub fn is_in(store: &[u8], n: NameNumber, directory: ObjectNumber) -> bool
    requires { name_start store.now n.0 + name_record_length ≤ length store.now }
    ensures { result ≡ is_in store.now directory.0 n.0 }
{
    let d = name_directory(store, n);
    if d != directory {
        return false;
    }
    is_used_name(store, n)
}

// Whether the record n, which starts at `at`, names a directory in a directory. Most records name none, so that is tested first.
fn is_subdirectory(store: &[u8], n: NameNumber, at: usize, directory: ObjectNumber) -> bool
    requires shaped { Shaped store.now }
    requires sound_names { SoundNames store.now }
    requires n_bound { n.0 < names store.now }
    requires at_value { at ≡ name_start store.now n.0 }
    ensures { result ≡ is_in store.now directory.0 n.0 && is_directory store.now (name_at store.now n.0).child }
{
    if wire::get_u32(store, at + NameRecord::LENGTH) == 0 {
        return false;
    }
    let child = ObjectNumber(wire::get_u32(store, at + NameRecord::CHILD) as usize);
    if !is_directory(store, child) {
        return false;
    }
    wire::get_u32(store, at) as usize == directory.0
}

// The directories in a directory. The loop is that of `naming_count`: one for both would take the test as a closure, and contracts on it.
pub fn subdirectory_count(store: &[u8], directory: ObjectNumber) -> usize
    requires shaped { Shaped store.now }
    requires sound_names { SoundNames store.now }
    ensures { result ≡ subdirectories store.now directory.0 }
{
    let start = names_start(store);
    let mut found = 0;
    for i in 0..name_count(store) {
        let at = start + NameRecord::BYTES * i;
        found += usize::from(is_subdirectory(store, NameNumber(i), at, directory));
    }
    found
}
