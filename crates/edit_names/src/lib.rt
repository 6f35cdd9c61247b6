// Objects with their names: the fourth, fifth and sixth edit of the store.
#![tactic(auto)]

ghost use Rattle.std.specs.Prelude.{◌≡◌, ◌+◌, ◌≤◌, ◌<◌, length};
ghost use Rattle.kinds.specs.Layout.{object_length};
ghost use Rattle.kinds.specs.Numbers.{most_name_bytes};
ghost use Rattle.kinds.specs.Objects.{free_object};
ghost use Rattle.spec.specs.Image.{object_start, objects, names, put_object};
ghost use Rattle.spec.specs.Edits.{with_generation, create_object, remove_object, move_name};
ghost use Rattle.spec.specs.Procedures.{cut};
ghost use Rattle.laws.proofs.GoodRecords.{GoodRecords};
ghost use Rattle.laws.proofs.Valid.{Used};

use edit_data::clear_blocks;
use kinds::call::Part;
use kinds::layout::ObjectRecord;
use kinds::numbers::{Kind, NameNumber, ObjectNumber};
use kinds::object::Object;
use store_places::need;
use store_records::counts::object_start;
use store_records::name::{clear_name, name_child, save_name};
use store_records::object::{blocks_of, generation_of, save_object, size_of};

// An object in a record that has been free: the record's generation stays.
fn with_generation(generation: u32, v: Object) -> Object
    ensures { result ≡ with_generation generation v }
{
    Object { generation, ..v }
}

// Object v in the free record o, named by a part of the call in a directory, by the free name record n.
pub fn create_object(
    store: &mut [u8],
    o: ObjectNumber,
    n: NameNumber,
    v: Object,
    directory: ObjectNumber,
    call: &[u8],
    name: Part,
)
    requires good_records { GoodRecords store.old }
    requires o_bound { o.0 < objects store.old }
    requires n_bound { n.0 < names store.old }
    requires directory_bound { directory.0 < objects store.old }
    requires length_in_bounds { name.start + name.length ≤ length call.now }
    requires length_le_most_name_bytes { name.length ≤ most_name_bytes }
    ensures { store.new ≡ create_object store.old o.0 n.0 v directory.0 (cut call.now name) }
{
    let generation = generation_of(store, o);
    save_object(store, o, with_generation(generation, v));
    save_name(store, n, directory, o, call, name);
}

// The bytes of an object record after its generation.
const AFTER_GENERATION: usize = ObjectRecord::BYTES - ObjectRecord::MODE;

// Frees an object's record, which keeps a generation.
fn clear_object(store: &mut [u8], o: ObjectNumber, generation: u32)
    requires { object_start o.0 + object_length ≤ length store.old }
    ensures { store.new ≡ put_object store.old o.0 (free_object generation) }
{
    let at = object_start(store, o);
    wire::put_u32(store, at, Kind::FREE);
    wire::put_u32(store, at + ObjectRecord::GENERATION, generation);
    wire::clear_bytes(store, at + ObjectRecord::MODE, AFTER_GENERATION);
}

// The object that a used name record names, its blocks and the name record are free.
pub fn remove_object(store: &mut [u8], n: NameNumber)
    requires good_records { GoodRecords store.old }
    requires n_bound { n.0 < names store.old }
    requires used { Used store.old n.0 }
    ensures { store.new ≡ remove_object store.old n.0 }
{
    let o = name_child(store, n);
    let size = size_of(store, o);
    let generation = generation_of(store, o);
    let blocks = blocks_of(store, o);
    let held = need(size as usize);
    clear_blocks(store, blocks, 0, held);
    clear_object(store, o, generation + 1);
    clear_name(store, n);
}

// The name record gets another directory and name.
pub fn move_name(store: &mut [u8], n: NameNumber, directory: ObjectNumber, call: &[u8], name: Part)
    requires good_records { GoodRecords store.old }
    requires n_bound { n.0 < names store.old }
    requires directory_bound { directory.0 < objects store.old }
    requires length_in_bounds { name.start + name.length ≤ length call.now }
    requires length_le_most_name_bytes { name.length ≤ most_name_bytes }
    ensures { store.new ≡ move_name store.old n.0 directory.0 (cut call.now name) }
{
    let child = name_child(store, n);
    save_name(store, n, directory, child, call, name);
}
