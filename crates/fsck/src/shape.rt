// The counts of a store, and its length. An object record has `width` bytes: in the layout of this store ObjectRecord::BYTES, in that of document 01
// ObjectRecord::OLD_BYTES.
ghost use Rattle.std.specs.Prelude.{◌≡◌, ◌≤◌};
ghost use Rattle.kinds.specs.Layout.{object_length};
ghost use Rattle.fsck.specs.Found.{shape_of, First};

use kinds::layout::{Block, Image, NameRecord};
use kinds::numbers::Limit;

// How many objects, name records and blocks a store has.
#[derive(Clone, Copy)]
pub struct Counts {
    pub objects: usize,
    pub names: usize,
    pub blocks: usize,
}

// The counts of a store of a good shape; none where the shape fails.
pub fn shape(store: &[u8], width: usize) -> Option<Counts>
    requires { width ≤ object_length }
    ensures { result ≡ shape_of width store.now }
{
    let length = store.len();
    if length < Image::BLOCKS_HEAD {
        return None;
    }
    if wire::get_u32(store, 0) != 1 {
        return None;
    }
    let objects = wire::get_u32(store, Image::OBJECT_COUNT) as usize;
    if objects < 1 {
        return None;
    }
    if objects > Limit::MOST_OBJECTS {
        return None;
    }
    if length < Image::BLOCKS_HEAD + width * objects {
        return None;
    }
    rest_of_shape(store, width, objects)
}

// The same, with the number of objects, which is in range, and after which the count of names lies.
fn rest_of_shape(store: &[u8], width: usize, objects: usize) -> Option<Counts>
    requires { First store.now width objects }
    ensures { result ≡ shape_of width store.now }
{
    let length = store.len();
    let names = wire::get_u32(store, Image::OBJECTS_HEAD + width * objects) as usize;
    if names > Limit::MOST_NAME_RECORDS {
        return None;
    }
    let start = Image::BLOCKS_HEAD + width * objects + NameRecord::BYTES * names;
    if length < start {
        return None;
    }
    let blocks = wire::get_u32(store, start - 4) as usize;
    if blocks > Limit::MOST_BLOCKS {
        return None;
    }
    if length != start + Block::BYTES * blocks {
        return None;
    }
    Some(Counts {
        objects,
        names,
        blocks,
    })
}
