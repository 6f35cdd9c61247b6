// The search for a name in a directory, and how many byte pairs it compares.
ghost use Rattle.std.specs.Prelude.{◌≡◌, ◌+◌, ◌<◌, ◌≤◌, length};
ghost use Rattle.kinds.specs.Layout.{name_record_length};
ghost use Rattle.kinds.specs.Numbers.{most_name_bytes};
ghost use Rattle.spec.specs.Image.{name_start, name_length};
ghost use Rattle.spec.specs.Room.{is_named, find_name, compared_at, compared};
ghost use Rattle.store_records.specs.Shaped.{Shaped, SoundNames};
ghost use Rattle.store_records.specs.Text.{text_of};
ghost use Rattle.store_search.specs.Found.{found_name};

use kinds::call::Part;
use kinds::layout::NameRecord;
use kinds::numbers::{NameNumber, ObjectNumber};
use store_records::counts::{name_count, names_start};
use wire::Compared;

// What a search found, and how many byte pairs it compared.
#[derive(Clone, Copy)]
pub struct Search {
    pub found: Option<NameNumber>,
    pub compared: usize,
}

// Compares the record n, which starts at `at`, with a name in a directory: the directory, then the length, then the bytes up to the first
// difference.
fn compare_name(
    store: &[u8],
    n: NameNumber,
    at: usize,
    directory: ObjectNumber,
    call: &[u8],
    name: Part,
) -> Compared
    requires at_value { at ≡ name_start store.now n.0 }
    requires name_record_length_in_bounds { at + name_record_length ≤ length store.now }
    requires n_bound { name_length store.now n.0 ≤ most_name_bytes }
    requires length_nonzero { 0 < name.length }
    requires length_in_bounds { name.start + name.length ≤ length call.now }
    ensures same_value { result.same ≡ is_named store.now directory.0 (text_of call.now name) n.0 }
    ensures pairs_value { result.pairs ≡ compared_at store.now directory.0 (text_of call.now name) n.0 }
{
    let owner = wire::get_u32(store, at) as usize;
    if owner != directory.0 {
        return Compared {
            pairs: 0,
            same: false,
        };
    }
    let stated = wire::get_u32(store, at + NameRecord::LENGTH) as usize;
    if stated != name.length {
        return Compared {
            pairs: 0,
            same: false,
        };
    }
    wire::compare_bytes(store, at + NameRecord::TEXT, call, name.start, name.length)
}

// Searches a directory for a name, record by record from the first up to the match.
pub fn search_name(store: &[u8], directory: ObjectNumber, call: &[u8], name: Part) -> Search
    requires shaped { Shaped store.now }
    requires sound_names { SoundNames store.now }
    requires length_in_bounds { name.start + name.length ≤ length call.now }
    ensures found_value { found_name result.found ≡ find_name store.now directory.0 (text_of call.now name) }
    ensures compared_value { result.compared ≡ compared store.now directory.0 (text_of call.now name) }
{
    if name.length == 0 {
        return Search {
            found: None,
            compared: 0,
        };
    }
    let start = names_start(store);
    let mut compared = 0;
    for i in 0..name_count(store) {
        let at = start + NameRecord::BYTES * i;
        let record = compare_name(store, NameNumber(i), at, directory, call, name);
        compared += record.pairs;
        if record.same {
            return Search {
                found: Some(NameNumber(i)),
                compared,
            };
        }
    }
    Search {
        found: None,
        compared,
    }
}

// The record of a name in a directory.
pub fn find_name(
    store: &[u8],
    directory: ObjectNumber,
    call: &[u8],
    name: Part,
) -> Option<NameNumber>
    requires shaped { Shaped store.now }
    requires sound_names { SoundNames store.now }
    requires length_in_bounds { name.start + name.length ≤ length call.now }
    ensures { found_name result ≡ find_name store.now directory.0 (text_of call.now name) }
{
    search_name(store, directory, call, name).found
}
