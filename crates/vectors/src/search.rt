// The search for a name, in a store that passes its check.
ghost use Rattle.std.specs.Prelude.{◌≤◌};

use fsck::check::check_store;
use kinds::call::Part;
use kinds::numbers::{Answer, Limit, ObjectNumber};
use store_search::search::search_name;
use vector_file::numbers::Numbers;
use vector_file::tags::Tag;

// A number as one of 32 bits; what is larger as the largest but one.
fn narrow(n: usize) -> u32
    ensures { result ≤ 4294967294 }
{
    wire::smaller(n, 4294967294) as u32
}

// Searches the directory of the table for the name that the call's bytes are, and puts into the table how many byte pairs were compared. Answers 0, or
// one more than the number of the record; nothing where the store fails its check.
pub fn search(numbers: &mut Numbers, store: &[u8], call: &[u8]) -> Option<Answer> {
    let mut used = [0u8; Limit::MOST_BLOCKS];
    let mut parents = [0u8; Limit::MOST_OBJECTS];
    let mut links = [0u8; Limit::MOST_OBJECTS];
    check_store(store, &mut used, &mut parents, &mut links)?;
    let directory = ObjectNumber(numbers[Tag::DIRECTORY] as usize);
    let name = Part {
        start: 0,
        length: call.len(),
    };
    let result = search_name(store, directory, call, name);
    let number = match result.found {
        None => 0,
        Some(n) => narrow(n.0) + 1,
    };
    numbers[Tag::SEARCHED] = number;
    numbers[Tag::PAIRS + Tag::FOUND] = narrow(result.compared);
    Some(Answer {
        number,
        length: 0,
        offset: 0,
    })
}
