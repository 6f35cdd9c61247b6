// Object records: one written, and single fields of one.
ghost use Rattle.std.specs.Prelude.{◌≡◌, ◌++◌, ◌+◌, ◌-◌, ◌*◌, ◌<◌, ◌≤◌, length, get_or};
ghost use Rattle.kinds.specs.BlockNumbers.{numbers_of};
ghost use Rattle.kinds.specs.Layout.{atime_offset, blocks_offset, verifier_offset, object_length, time_length};
ghost use Rattle.kinds.specs.Numbers.{file_blocks};
ghost use Rattle.spec.specs.Bytes.{overlay, bytes_of};
ghost use Rattle.spec.specs.Image.{object_start, time_at, time_bytes, halves_bytes, head_bytes, object_at, put_object};
ghost use Rattle.spec.specs.Room.{is_live, is_regular, is_directory, size_of};

use crate::counts::object_start;
use kinds::layout::{ObjectRecord, TimeField};
use kinds::numbers::{BlockNumber, Kind, Limit, ObjectNumber};
use kinds::object::{Object, Time};

fn load_time(store: &[u8], at: usize) -> Time
    requires { at + time_length ≤ length store.now }
    ensures { result ≡ time_at store.now at }
{
    let seconds = wire::get_u32(store, at);
    let nanoseconds = wire::get_u32(store, at + TimeField::NANOSECONDS);
    Time {
        seconds,
        nanoseconds,
    }
}

// Writes a time.
pub fn save_time(store: &mut [u8], at: usize, t: Time)
    requires { at + time_length ≤ length store.old }
    ensures { store.new ≡ overlay store.old at (time_bytes t) }
{
    wire::put_u32(store, at, t.seconds);
    wire::put_u32(store, at + TimeField::NANOSECONDS, t.nanoseconds);
}

// The block numbers of an object, each of its kind.
fn block_numbers(numbers: [u16; 16]) -> [BlockNumber; 16]
    ensures { numbers_of result ≡ numbers }
{
    numbers.map(BlockNumber)
}

// Writes the block numbers of a record.
pub fn save_blocks(store: &mut [u8], at: usize, blocks: [BlockNumber; 16])
    requires { at + (verifier_offset - blocks_offset) ≤ length store.old }
    ensures { store.new ≡ overlay store.old at (halves_bytes file_blocks (numbers_of blocks)) }
{
    for (k, r) in blocks.iter().enumerate() {
        wire::put_u16(store, at + 2 * k, r.0);
    }
}

// Writes the six numbers before an object's times.
fn save_head(store: &mut [u8], at: usize, v: Object)
    requires { at + atime_offset ≤ length store.old }
    ensures { store.new ≡ overlay store.old at (head_bytes v) }
{
    wire::put_u32(store, at, v.kind);
    wire::put_u32(store, at + ObjectRecord::GENERATION, v.generation);
    wire::put_u32(store, at + ObjectRecord::MODE, v.mode);
    wire::put_u32(store, at + ObjectRecord::UID, v.uid);
    wire::put_u32(store, at + ObjectRecord::GID, v.gid);
    wire::put_u32(store, at + ObjectRecord::SIZE, v.size);
}

// Writes an object's times.
pub fn save_times(store: &mut [u8], at: usize, atime: Time, mtime: Time, ctime: Time)
    requires { at + 3 * time_length ≤ length store.old }
    ensures { store.new ≡ overlay store.old at (time_bytes atime ++ time_bytes mtime ++ time_bytes ctime) }
{
    save_time(store, at, atime);
    save_time(store, at + TimeField::BYTES, mtime);
    save_time(store, at + 2 * TimeField::BYTES, ctime);
}

// Where the flag stands after the verifier.
const FLAG_AFTER_VERIFIER: usize = ObjectRecord::EXCLUSIVE - ObjectRecord::VERIFIER;

// Writes an object's verifier and flag.
pub fn save_verifier(store: &mut [u8], at: usize, verifier: u64, flag: u32)
    requires { at + (object_length - verifier_offset) ≤ length store.old }
    ensures { store.new ≡ overlay store.old at (bytes_of 8 verifier ++ bytes_of 4 flag) }
{
    wire::put_u64(store, at, verifier);
    wire::put_u32(store, at + FLAG_AFTER_VERIFIER, flag);
}

pub fn save_object(store: &mut [u8], o: ObjectNumber, v: Object)
    requires { object_start o.0 + object_length ≤ length store.old }
    ensures { store.new ≡ put_object store.old o.0 v }
{
    let at = object_start(store, o);
    save_head(store, at, v);
    save_times(store, at + ObjectRecord::ATIME, v.atime, v.mtime, v.ctime);
    save_blocks(store, at + ObjectRecord::BLOCKS, block_numbers(v.blocks));
    save_verifier(store, at + ObjectRecord::VERIFIER, v.verifier, v.exclusive);
}

// Single fields of a record. One getter for all, with the offset as a parameter, would save one of the two lines of each, and would need clauses of its own
// that tie the offset to the record.
pub fn kind_of(store: &[u8], o: ObjectNumber) -> u32
    requires { object_start o.0 + object_length ≤ length store.now }
    ensures { result ≡ (object_at store.now o.0).kind }
{
    let at = object_start(store, o);
    wire::get_u32(store, at)
}

pub fn generation_of(store: &[u8], o: ObjectNumber) -> u32
    requires { object_start o.0 + object_length ≤ length store.now }
    ensures { result ≡ (object_at store.now o.0).generation }
{
    let at = object_start(store, o);
    wire::get_u32(store, at + ObjectRecord::GENERATION)
}

pub fn size_of(store: &[u8], o: ObjectNumber) -> u32
    requires { object_start o.0 + object_length ≤ length store.now }
    ensures { result ≡ size_of store.now o.0 }
{
    let at = object_start(store, o);
    wire::get_u32(store, at + ObjectRecord::SIZE)
}

pub fn mode_of(store: &[u8], o: ObjectNumber) -> u32
    requires { object_start o.0 + object_length ≤ length store.now }
    ensures { result ≡ (object_at store.now o.0).mode }
{
    let at = object_start(store, o);
    wire::get_u32(store, at + ObjectRecord::MODE)
}

pub fn uid_of(store: &[u8], o: ObjectNumber) -> u32
    requires { object_start o.0 + object_length ≤ length store.now }
    ensures { result ≡ (object_at store.now o.0).uid }
{
    let at = object_start(store, o);
    wire::get_u32(store, at + ObjectRecord::UID)
}

pub fn gid_of(store: &[u8], o: ObjectNumber) -> u32
    requires { object_start o.0 + object_length ≤ length store.now }
    ensures { result ≡ (object_at store.now o.0).gid }
{
    let at = object_start(store, o);
    wire::get_u32(store, at + ObjectRecord::GID)
}

pub fn atime_of(store: &[u8], o: ObjectNumber) -> Time
    requires { object_start o.0 + object_length ≤ length store.now }
    ensures { result ≡ (object_at store.now o.0).atime }
{
    let at = object_start(store, o);
    load_time(store, at + ObjectRecord::ATIME)
}

pub fn mtime_of(store: &[u8], o: ObjectNumber) -> Time
    requires { object_start o.0 + object_length ≤ length store.now }
    ensures { result ≡ (object_at store.now o.0).mtime }
{
    let at = object_start(store, o);
    load_time(store, at + ObjectRecord::MTIME)
}

pub fn ctime_of(store: &[u8], o: ObjectNumber) -> Time
    requires { object_start o.0 + object_length ≤ length store.now }
    ensures { result ≡ (object_at store.now o.0).ctime }
{
    let at = object_start(store, o);
    load_time(store, at + ObjectRecord::CTIME)
}

pub fn verifier_of(store: &[u8], o: ObjectNumber) -> u64
    requires { object_start o.0 + object_length ≤ length store.now }
    ensures { result ≡ (object_at store.now o.0).verifier }
{
    let at = object_start(store, o);
    wire::get_u64(store, at + ObjectRecord::VERIFIER)
}

pub fn exclusive_of(store: &[u8], o: ObjectNumber) -> u32
    requires { object_start o.0 + object_length ≤ length store.now }
    ensures { result ≡ (object_at store.now o.0).exclusive }
{
    let at = object_start(store, o);
    wire::get_u32(store, at + ObjectRecord::EXCLUSIVE)
}

// The k-th of the block numbers of a record.
pub fn block_of(store: &[u8], o: ObjectNumber, k: usize) -> BlockNumber
    requires object_length_in_bounds { object_start o.0 + object_length ≤ length store.now }
    requires k_lt_file_blocks { k < file_blocks }
    ensures { result.0 ≡ get_or (object_at store.now o.0).blocks k 0 }
{
    let at = object_start(store, o);
    BlockNumber(wire::get_u16(store, at + ObjectRecord::BLOCKS + 2 * k))
}

// The block numbers of a record.
pub fn blocks_of(store: &[u8], o: ObjectNumber) -> [BlockNumber; 16]
    requires { object_start o.0 + object_length ≤ length store.now }
    ensures { numbers_of result ≡ (object_at store.now o.0).blocks }
{
    let mut blocks = [BlockNumber(Limit::UNUSED_BLOCK); 16];
    for k in 0..Limit::FILE_BLOCKS {
        blocks[k] = block_of(store, o, k);
    }
    blocks
}

// Whether an object is live, a regular file, or a directory.
pub fn is_live(store: &[u8], o: ObjectNumber) -> bool
    requires { object_start o.0 + object_length ≤ length store.now }
    ensures { result ≡ is_live store.now o.0 }
{
    kind_of(store, o) != Kind::FREE
}

pub fn is_regular(store: &[u8], o: ObjectNumber) -> bool
    requires { object_start o.0 + object_length ≤ length store.now }
    ensures { result ≡ is_regular store.now o.0 }
{
    kind_of(store, o) == Kind::REGULAR
}

pub fn is_directory(store: &[u8], o: ObjectNumber) -> bool
    requires { object_start o.0 + object_length ≤ length store.now }
    ensures { result ≡ is_directory store.now o.0 }
{
    kind_of(store, o) == Kind::DIRECTORY
}
