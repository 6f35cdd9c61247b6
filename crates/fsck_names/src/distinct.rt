// That no two names in a directory are the same, by chains of the records of one hash: `head` has for each hash the last record with it,
// and `next` for each record the one before it with the same hash. Both hold the record's number and 1, or 0 for none.
// They are two arrays: as one struct they make the check of a small store 2.8 % longer in instructions and that of a full one 0.3 % shorter, and each
// contract names both maps as before.
ghost use Rattle.std.specs.Prelude.{◌≡◌, false, ℕ, ◌+◌, ◌≤◌, ◌<◌, length, get_or, set};
ghost use Rattle.kinds.specs.Numbers.{most_name_records};
ghost use Rattle.spec.specs.Image.{objects, names};
ghost use Rattle.laws.proofs.Valid.{Framed, UsedName};
ghost use Rattle.fsck_objects.specs.Told.{Told};
ghost use Rattle.fsck_names.specs.Distinct.{hash, is_same, New, Chains};

use crate::record::directory_of;
use crate::text::same_text;
use kinds::layout::NameRecord;
use kinds::numbers::{Limit, NameNumber};
use store_places::name_place;
use wire::hash::{join, word_at};

// The hash of a name record's directory and name bytes.
pub fn hash_of(store: &[u8], p: usize, n: NameNumber) -> usize
    requires framed { Framed store.now }
    requires p_value { p ≡ objects store.now }
    requires n_bound { n.0 < names store.now }
    ensures { (result ≡ hash store.now n.0) × (result < 256) }
{
    let at = name_place(p, n);
    let directory = directory_of(store, p, n);
    let text = at + NameRecord::TEXT;
    let first = join(directory.0, word_at(store, text));
    let second = join(first, word_at(store, text + 8));
    let third = join(second, word_at(store, text + 16));
    let x = join(third, word_at(store, text + 24));
    (x / 4294967296 * 2104504639 + x % 4294967296 * 1511612125) / 134217728 % 256
}

// Whether record m has the directory and the name of record n, where both are used and pass by themselves.
fn same_name(store: &[u8], p: usize, m: NameNumber, n: NameNumber) -> bool
    requires framed { Framed store.now }
    requires p_value { p ≡ objects store.now }
    requires m_bound { m.0 < names store.now }
    requires n_bound { n.0 < names store.now }
    requires used_name { UsedName store.now m.0 }
    requires used_name_2 { UsedName store.now n.0 }
    ensures { result ≡ is_same store.now n.0 m.0 }
{
    let directory = directory_of(store, p, m);
    let other = directory_of(store, p, n);
    let same = directory == other;
    same & same_text(
        store,
        name_place(p, m) + NameRecord::TEXT,
        name_place(p, n) + NameRecord::TEXT,
    )
}

// Whether no record before n, which is used and has the hash h, has its directory and name. Goes through the whole chain and branches on no
// name, so that there are no names for which the processor predicts wrongly.
pub fn is_new(
    store: &[u8],
    p: usize,
    n: NameNumber,
    h: usize,
    head: &[u8; 256],
    next: &[u8; Limit::MOST_NAME_RECORDS],
) -> bool
    requires framed { Framed store.now }
    requires p_value { p ≡ objects store.now }
    requires new { New store.now n.0 h }
    requires chains { Chains store.now n.0 head.now next.now }
    ensures { Told result store.now ((m : ℕ) → m < n.0 → is_same store.now n.0 m ≡ false) }
{
    let mut found = false;
    let mut k = usize::from(head[h]);
    // A walk along the chain, each link read from the one before: no range is gone through.
    while k != 0 {
        found = found | same_name(store, p, NameNumber(k - 1), n);
        k = usize::from(next[k - 1]);
    }
    !found
}

// Puts record n before the others of its hash.
pub fn put_first(
    head: &mut [u8; 256],
    next: &mut [u8; Limit::MOST_NAME_RECORDS],
    h: usize,
    n: NameNumber,
)
    requires h_bound { h < 256 }
    requires n_lt_most_name_records { n.0 < most_name_records }
    ensures { (head.new ≡ set head.old h (n.0 + 1)) × (next.new ≡ set next.old n.0 (get_or head.old h 0)) }
{
    let i = n.0;
    next[i] = head[h];
    head[h] = (i + 1) as u8;
}
