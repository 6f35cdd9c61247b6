// All name records.
ghost use Rattle.std.specs.Prelude.{◌≡◌, ◌+◌, ◌<◌};
ghost use Rattle.kinds.specs.Numbers.{most_objects, most_name_records};
ghost use Rattle.spec.specs.Image.{objects, names};
ghost use Rattle.laws.proofs.Valid.{Framed};
ghost use Rattle.fsck_objects.specs.Told.{Told};
ghost use Rattle.fsck_objects.specs.Objects.{Blank, Inside};
ghost use Rattle.fsck_names.specs.Names.{NamesPass};

use crate::distinct::{hash_of, is_new, put_first};
use crate::named::mark_child;
use crate::record::{length_of, record_passes};
use kinds::numbers::{Limit, NameNumber};

// Whether name record n passes, and those before it.
fn name_passes(
    store: &[u8],
    inside: &[u8; 64],
    p: usize,
    n: NameNumber,
    parents: &mut [u8; Limit::MOST_OBJECTS],
    links: &mut [u8; Limit::MOST_OBJECTS],
    head: &mut [u8; 256],
    next: &mut [u8; Limit::MOST_NAME_RECORDS],
) -> bool
    requires framed { Framed store.now }
    requires p_value { p ≡ objects store.now }
    requires n_bound { n.0 < names store.now }
    requires names_pass { NamesPass store.now n.0 parents.old links.old head.old next.old }
    requires inside { Inside inside.now }
    ensures { Told result store.now (NamesPass store.now (n.0 + 1) parents.new links.new head.new next.new) }
{
    let len = length_of(store, p, n);
    if !record_passes(store, inside, p, n, len) {
        return false;
    }
    if len == 0 {
        return true;
    }
    // Before the map is written: else the compiler keeps the name's words in registers for a chain that is mostly empty.
    let h = hash_of(store, p, n);
    if !mark_child(store, p, n, parents, links) {
        return false;
    }
    if !is_new(store, p, n, h, head, next) {
        return false;
    }
    put_first(head, next, h, n);
    true
}

// Whether every name record passes; makes the map of parents and that of links, which are zero before, as the other two maps are.
pub fn names_pass(
    store: &[u8],
    inside: &[u8; 64],
    p: usize,
    count: usize,
    parents: &mut [u8; Limit::MOST_OBJECTS],
    links: &mut [u8; Limit::MOST_OBJECTS],
    head: &mut [u8; 256],
    next: &mut [u8; Limit::MOST_NAME_RECORDS],
) -> bool
    requires framed { Framed store.now }
    requires p_value { p ≡ objects store.now }
    requires count_value { count ≡ names store.now }
    requires blank { Blank most_objects parents.old }
    requires blank_2 { Blank most_objects links.old }
    requires blank_3 { Blank 256 head.old }
    requires blank_4 { Blank most_name_records next.old }
    requires inside { Inside inside.now }
    ensures { Told result store.now (NamesPass store.now count parents.new links.new head.new next.new) }
{
    for n in 0..count {
        if !name_passes(store, inside, p, NameNumber(n), parents, links, head, next) {
            return false;
        }
    }
    true
}
