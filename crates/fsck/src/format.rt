// Format: a store with a root and nothing else.
ghost use Rattle.std.specs.Prelude.{◌≡◌, ◌≤◌, length};
ghost use Rattle.kinds.specs.Numbers.{most_objects, most_name_records};
ghost use Rattle.spec.specs.Image.{object_start};
ghost use Rattle.spec.specs.Check.{image_length};
ghost use Rattle.spec.specs.Serve.{formatted, format};
ghost use Rattle.fsck.specs.Format.{answer_for, front_of, Leaves};

use kinds::layout::{Block, Image, NameRecord, ObjectRecord};
use kinds::numbers::{Answer, Limit, ObjectNumber};
use kinds::object::{Object, Time};

// Format's answer, a number that C reads, for these counts, this clock and a buffer of that length.
fn answer_for(length: usize, p: usize, q: usize, r: usize, nanoseconds: u32) -> u32
    ensures { result ≡ answer_for length p q r nanoseconds }
{
    if nanoseconds >= Limit::NANOSECONDS_END {
        return Answer::CLOCK;
    }
    if p < 1 {
        return Answer::FORMAT;
    }
    if p > Limit::MOST_OBJECTS {
        return Answer::FORMAT;
    }
    if q > Limit::MOST_NAME_RECORDS {
        return Answer::FORMAT;
    }
    if r > Limit::MOST_BLOCKS {
        return Answer::FORMAT;
    }
    if length
        != Image::BLOCKS_HEAD + ObjectRecord::BYTES * p + NameRecord::BYTES * q + Block::BYTES * r
    {
        return Answer::FORMAT;
    }
    Answer::DONE
}

// Where the root's record ends.
const ROOT_END: usize = Image::OBJECTS_HEAD + ObjectRecord::BYTES;

// Writes the volume, the number of objects and the root, and makes all else zero.
fn write_front(store: &mut [u8], stamp: u32, p: u32, clock: Time)
    requires { object_start 1 ≤ length store.old }
    ensures { store.new ≡ front_of store.old stamp p clock }
{
    let length = store.len();
    wire::put_u32(store, 0, 1);
    wire::put_u32(store, Image::STAMP, stamp);
    wire::put_u32(store, Image::OBJECT_COUNT, p);
    store_records::object::save_object(store, ObjectNumber(0), Object::root(clock));
    wire::clear_bytes(store, ROOT_END, length - ROOT_END);
}

// Writes every byte of a store with these counts, which are in range, and of that length.
fn write_store(store: &mut [u8], stamp: u32, p: u32, q: u32, r: u32, clock: Time)
    requires le_p { 1 ≤ p }
    requires p_le_most_objects { p ≤ most_objects }
    requires q_le_most_name_records { q ≤ most_name_records }
    requires store_len { length store.old ≡ image_length p q r }
    ensures { store.new ≡ formatted stamp p q r clock }
{
    let names = Image::OBJECTS_HEAD + ObjectRecord::BYTES * p as usize;
    let blocks = Image::NAMES_HEAD
        + ObjectRecord::BYTES * p as usize
        + NameRecord::BYTES * q as usize;
    write_front(store, stamp, p, clock);
    wire::put_u32(store, names, q);
    wire::put_u32(store, blocks, r);
}

// Formats a store: 3 for a clock, then 6 for a count out of range or another length, then 0; 3 and 6 change nothing. C reads the number.
pub fn format_store(
    store: &mut [u8],
    stamp: u32,
    objects: u32,
    names: u32,
    blocks: u32,
    clock: Time,
) -> u32
    ensures { Leaves (format store.old stamp objects names blocks clock) result store.new }
{
    let p = objects as usize;
    let q = names as usize;
    let r = blocks as usize;
    let answer = answer_for(store.len(), p, q, r, clock.nanoseconds);
    if answer != Answer::DONE {
        return answer;
    }
    write_store(store, stamp, objects, names, blocks, clock);
    Answer::DONE
}
