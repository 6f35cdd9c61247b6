// The third edit of the store: a file's size and its blocks.
ghost use Rattle.std.specs.Prelude.{◌≡◌, ◌++◌, ◌+◌, ◌-◌, ◌≤◌, ◌<◌, length, take};
ghost use Rattle.kinds.specs.BlockNumbers.{numbers_of};
ghost use Rattle.kinds.specs.Layout.{object_length};
ghost use Rattle.kinds.specs.Numbers.{REGULAR, file_blocks, most_file_bytes};
ghost use Rattle.spec.specs.Image.{objects, object_start, object_at, put_object};
ghost use Rattle.spec.specs.Room.{need, size_of, free_block_count};
ghost use Rattle.spec.specs.Edits.{block_numbers, with_size, resize};
ghost use Rattle.laws.proofs.GoodRecords.{GoodRecords};
ghost use Rattle.store_blocks.specs.Blocks.{UsedMap};

use edit_data::{clear_blocks, clear_tail};
use kinds::layout::ObjectRecord;
use kinds::numbers::{BlockNumber, Limit, ObjectNumber};
use store_blocks::free_blocks;
use store_places::need;
use store_records::counts::object_start;
use store_records::object::{blocks_of, save_blocks, size_of};

// The blocks of a file that had `before` and is to have `after`: the first of its own, then of the added ones, then the number of an unused block.
fn resized_blocks(
    own: [BlockNumber; 16],
    added: [BlockNumber; 16],
    before: usize,
    after: usize,
) -> [BlockNumber; 16]
    requires before_le_file_blocks { before ≤ file_blocks }
    requires after_le_file_blocks { after ≤ file_blocks }
    ensures { numbers_of result ≡ block_numbers (take after (take before (numbers_of own)) ++ take (after - before) (numbers_of added)) }
{
    let mut list = [BlockNumber(Limit::UNUSED_BLOCK); 16];
    for k in 0..after {
        if k < before {
            list[k] = own[k];
        } else {
            list[k] = added[k - before];
        }
    }
    list
}

// Writes the size and the blocks of an object. The other bytes of its record stay.
fn save_size(store: &mut [u8], o: ObjectNumber, size: u32, list: [BlockNumber; 16])
    requires { object_start o.0 + object_length ≤ length store.old }
    ensures { store.new ≡ put_object store.old o.0 (with_size size (numbers_of list) (object_at store.old o.0)) }
{
    let at = object_start(store, o);
    wire::put_u32(store, at + ObjectRecord::SIZE, size);
    save_blocks(store, at + ObjectRecord::BLOCKS, list);
}

// A file's size, not above what it was: the bytes and the blocks that it loses are zeroed.
fn shrink(store: &mut [u8], o: ObjectNumber, size: usize)
    requires good_records { GoodRecords store.old }
    requires o_bound { o.0 < objects store.old }
    requires o_value { (object_at store.old o.0).kind ≡ REGULAR }
    requires size_bound { size ≤ size_of store.old o.0 }
    ensures { store.new ≡ resize store.old o.0 size }
{
    let old = size_of(store, o) as usize;
    let own = blocks_of(store, o);
    let before = need(old);
    let after = need(size);
    clear_tail(store, o, size, old);
    clear_blocks(store, own, after, before);
    save_size(
        store,
        o,
        size as u32,
        resized_blocks(own, own, before, after),
    );
}

// A file's size, not below what it was: the bytes and the blocks that it gets are zeroed. The map says which blocks are used.
fn grow(store: &mut [u8], used: &[u8; Limit::MOST_BLOCKS], o: ObjectNumber, size: usize)
    requires good_records { GoodRecords store.old }
    requires used_map { UsedMap store.old used.now }
    requires o_bound { o.0 < objects store.old }
    requires o_value { (object_at store.old o.0).kind ≡ REGULAR }
    requires o_bound_2 { size_of store.old o.0 ≤ size }
    requires size_le_most_file_bytes { size ≤ most_file_bytes }
    requires o_bound_3 { need size - need (size_of store.old o.0) ≤ free_block_count store.old }
    ensures { store.new ≡ resize store.old o.0 size }
{
    let old = size_of(store, o) as usize;
    let own = blocks_of(store, o);
    let before = need(old);
    let after = need(size);
    let added = free_blocks(store, used, after - before);
    clear_tail(store, o, old, size);
    clear_blocks(store, added, 0, after - before);
    save_size(
        store,
        o,
        size as u32,
        resized_blocks(own, added, before, after),
    );
}

// A file's size. The map says which blocks are used. Nothing is written where the size is the old one.
pub fn resize(store: &mut [u8], used: &[u8; Limit::MOST_BLOCKS], o: ObjectNumber, size: usize)
    requires good_records { GoodRecords store.old }
    requires used_map { UsedMap store.old used.now }
    requires o_bound { o.0 < objects store.old }
    requires o_value { (object_at store.old o.0).kind ≡ REGULAR }
    requires size_le_most_file_bytes { size ≤ most_file_bytes }
    requires o_bound_2 { need size - need (size_of store.old o.0) ≤ free_block_count store.old }
    ensures { store.new ≡ resize store.old o.0 size }
{
    let old = size_of(store, o) as usize;
    if size == old {
        return;
    }
    if size < old {
        shrink(store, o, size);
        return;
    }
    grow(store, used, o, size);
}
