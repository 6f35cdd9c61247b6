// That parents lead to the root. `depths` has for each object whose steps to the root are known that number and 1, else 0.
ghost use Rattle.std.specs.Prelude.{◌≡◌, ◌-◌, ◌≤◌, ◌<◌, get_or};
ghost use Rattle.kinds.specs.Numbers.{most_objects};
ghost use Rattle.spec.specs.Image.{objects, names};
ghost use Rattle.laws.proofs.Valid.{Framed};
ghost use Rattle.fsck_objects.specs.Told.{Told};
ghost use Rattle.fsck_objects.specs.Objects.{Blank};
ghost use Rattle.fsck_names.specs.Named.{NamedBy};
ghost use Rattle.fsck.specs.Tree.{Parents, Known, Steps, Depth, Leads, TreePasses};

use kinds::numbers::{Limit, ObjectNumber};
use store_records::object::is_live;

// The parent of an object by the map.
fn parent_of(parents: &[u8; Limit::MOST_OBJECTS], o: ObjectNumber) -> ObjectNumber
    requires { o.0 < most_objects }
    ensures { result.0 ≡ get_or parents.now o.0 0 - 1 }
{
    let i = o.0;
    let mark = usize::from(parents[i]);
    if mark == 0 {
        return ObjectNumber(0);
    }
    ObjectNumber(mark - 1)
}

// How many steps it is from object o to the root; more than p where p steps do not lead there. The store is there for the contract alone.
fn steps(
    store: &[u8],
    p: usize,
    parents: &[u8; Limit::MOST_OBJECTS],
    depths: &[u8; Limit::MOST_OBJECTS],
    o: ObjectNumber,
) -> usize
    requires parents { Parents store.now p parents.now }
    requires known { Known store.now p depths.now }
    requires o_lt_p { o.0 < p }
    ensures { Steps store.now p o.0 result }
{
    let mut at = o.0;
    for k in 0..p + 1 {
        let depth = usize::from(depths[at]);
        if depth != 0 {
            return k + depth - 1;
        }
        at = parent_of(parents, ObjectNumber(at)).0;
    }
    p + 1
}

// Writes down the steps of object o, and of each object above it up to one whose steps are known. The store is there for the contract alone.
fn note_steps(
    store: &[u8],
    p: usize,
    parents: &[u8; Limit::MOST_OBJECTS],
    depths: &mut [u8; Limit::MOST_OBJECTS],
    o: ObjectNumber,
    count: usize,
)
    requires parents { Parents store.now p parents.now }
    requires known { Known store.now p depths.old }
    requires o_lt_p { o.0 < p }
    requires count_le_p { count ≤ p }
    requires depth { Depth store.now o.0 count }
    ensures { Known store.now p depths.new }
{
    let mut at = o.0;
    let mut d = count;
    // A walk up from object to object, which ends where the map says: no range is gone through.
    while depths[at] == 0 {
        depths[at] = (d + 1) as u8;
        at = parent_of(parents, ObjectNumber(at)).0;
        d -= 1;
    }
}

// Whether object o, if it is live, is named, but for the root, and its parents lead to the root.
fn leads_by_steps(
    store: &[u8],
    p: usize,
    parents: &[u8; Limit::MOST_OBJECTS],
    depths: &mut [u8; Limit::MOST_OBJECTS],
    o: ObjectNumber,
) -> bool
    requires framed { Framed store.now }
    requires p_value { p ≡ objects store.now }
    requires named_by { NamedBy store.now (names store.now) parents.now }
    requires known { Known store.now p depths.old }
    requires o_lt_p { o.0 < p }
    ensures { Told result store.now (Leads store.now p o.0 depths.new) }
{
    let i = o.0;
    if i == 0 {
        return true;
    }
    if parents[i] == 0 {
        return !is_live(store, o);
    }
    let count = steps(store, p, parents, depths, o);
    if count > p {
        return false;
    }
    note_steps(store, p, parents, depths, o, count);
    true
}

// The same, at once where the steps of the object's parent are known.
fn leads(
    store: &[u8],
    p: usize,
    parents: &[u8; Limit::MOST_OBJECTS],
    depths: &mut [u8; Limit::MOST_OBJECTS],
    o: ObjectNumber,
) -> bool
    requires framed { Framed store.now }
    requires p_value { p ≡ objects store.now }
    requires named_by { NamedBy store.now (names store.now) parents.now }
    requires known { Known store.now p depths.old }
    requires o_lt_p { o.0 < p }
    ensures { Told result store.now (Leads store.now p o.0 depths.new) }
{
    let i = o.0;
    let mark = usize::from(parents[i]);
    if mark != 0 {
        let depth = usize::from(depths[mark - 1]);
        if depth != 0 && depth <= p {
            depths[i] = (depth + 1) as u8;
            return true;
        }
    }
    leads_by_steps(store, p, parents, depths, o)
}

// Whether every object is named as it must be, and its parents lead to the root. `depths` is zero before.
pub fn tree_passes(
    store: &[u8],
    p: usize,
    parents: &[u8; Limit::MOST_OBJECTS],
    depths: &mut [u8; Limit::MOST_OBJECTS],
) -> bool
    requires framed { Framed store.now }
    requires p_value { p ≡ objects store.now }
    requires named_by { NamedBy store.now (names store.now) parents.now }
    requires blank { Blank most_objects depths.old }
    ensures { Told result store.now (TreePasses store.now p p depths.new) }
{
    depths[0] = 1;
    for o in 0..p {
        if !leads(store, p, parents, depths, ObjectNumber(o)) {
            return false;
        }
    }
    true
}
