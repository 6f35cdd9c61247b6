// Free blocks, by a map of those that are used.
#![tactic(auto)]

ghost use Rattle.std.specs.Prelude.{◌≡◌, ◌+◌, ◌<◌, ◌≤◌, eqb};
ghost use Rattle.kinds.specs.BlockNumbers.{numbers_of};
ghost use Rattle.kinds.specs.Numbers.{file_blocks};
ghost use Rattle.spec.specs.Count.{count};
ghost use Rattle.spec.specs.Image.{blocks};
ghost use Rattle.spec.specs.Room.{is_free_block, free_blocks, free_block_count};
ghost use Rattle.store_records.specs.Shaped.{Shaped};
ghost use Rattle.store_blocks.specs.Blocks.{UsedMap, block_list, group};

use kinds::numbers::{BlockNumber, Limit};
use store_records::counts::block_count;

fn is_free_block(store: &[u8], map: &[u8; Limit::MOST_BLOCKS], r: BlockNumber) -> bool
    requires shaped { Shaped store.now }
    requires used_map { UsedMap store.now map.now }
    requires r_bound { r.0 < blocks store.now }
    ensures { result ≡ is_free_block store.now r.0 }
{
    let i = r.0 as usize;
    map[i] == 0
}

// The free blocks: all but those that the map marks, which are few enough for 16 bits.
pub fn free_block_count(store: &[u8], map: &[u8; Limit::MOST_BLOCKS]) -> usize
    requires shaped { Shaped store.now }
    requires used_map { UsedMap store.now map.now }
    ensures { result ≡ free_block_count store.now }
{
    let total = block_count(store);
    let mut used: u16 = 0;
    for x in &map[..total] {
        used += *x as u16;
    }
    total - used as usize
}

// How many blocks are tested together.
const GROUP: usize = 64;

// Whether the blocks of the group that starts with a block are all used: as many are free below its end as below its start.
fn all_used(store: &[u8], map: &[u8; Limit::MOST_BLOCKS], first: BlockNumber) -> bool
    requires shaped { Shaped store.now }
    requires used_map { UsedMap store.now map.now }
    requires group_bound { first.0 + group ≤ blocks store.now }
    ensures { result ≡ eqb (count (first.0 + group) (is_free_block store.now)) (count first.0 (is_free_block store.now)) }
{
    let i = first.0 as usize;
    let mut used: u8 = 0;
    for x in &map[i..i + GROUP] {
        used += *x;
    }
    used as usize == GROUP
}

// The lowest-numbered free blocks, as many as are wanted and free, then the number of an unused block.
pub fn free_blocks(store: &[u8], map: &[u8; Limit::MOST_BLOCKS], wanted: usize) -> [BlockNumber; 16]
    requires shaped { Shaped store.now }
    requires used_map { UsedMap store.now map.now }
    requires wanted_le_file_blocks { wanted ≤ file_blocks }
    ensures { numbers_of result ≡ block_list wanted (free_blocks store.now) }
{
    let total = block_count(store);
    let mut list = [BlockNumber(Limit::UNUSED_BLOCK); 16];
    let mut k = 0;
    // A step is one block or a group of them, so that no range has these steps.
    let mut i = 0;
    while i < total {
        if k == wanted {
            return list;
        }
        let r = BlockNumber(i as u16);
        if i % GROUP == 0 {
            if total - i >= GROUP {
                if all_used(store, map, r) {
                    i += GROUP;
                    continue;
                }
            }
        }
        if is_free_block(store, map, r) {
            list[k] = r;
            k += 1;
        }
        i += 1;
    }
    list
}
