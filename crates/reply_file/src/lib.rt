// The bytes of a file in a reply.
#![tactic(auto)]

ghost use Rattle.std.specs.Prelude.{◌+◌, ◌≤◌, length};
ghost use Rattle.spec.specs.Bytes.{opaque_bytes, padding};
ghost use Rattle.spec.specs.Edits.{read_file};
ghost use Rattle.results.specs.Writable.{Readable};
ghost use Rattle.xdr.specs.Wrote.{Wrote};
ghost use Rattle.reply_file.specs.Together.{Together};

use kinds::layout::Block;
use kinds::numbers::ObjectNumber;
use store_records::block::byte_at;
use store_records::object::block_of;
use xdr::read::padding;
use xdr::write::{put_bytes, put_word};

// How many of `left` bytes of a file, from byte i on, lie one after the other in the store: those in the block of byte i, and those in the
// blocks after it as long as each is the next of the store.
fn run_length(store: &[u8], o: ObjectNumber, i: usize, left: usize) -> usize
    requires readable { Readable store.now o.0 i left }
    requires le_left { 1 ≤ left }
    ensures lower_bound { 1 ≤ result }
    ensures upper_bound { result ≤ left }
    ensures together { Together store.now o.0 i result }
{
    // Ends at the first gap, which its steps look for: as a search through `step_by` it would need the same sums, in a closure.
    let mut k = i / Block::BYTES;
    let mut run = Block::BYTES - i % Block::BYTES;
    while run < left {
        let here = block_of(store, o, k);
        let next = block_of(store, o, k + 1);
        if next.0 as usize != here.0 as usize + 1 {
            return run;
        }
        k += 1;
        run += Block::BYTES;
    }
    left
}

// n bytes of an object's file from `offset`, run by run.
fn put_runs(
    reply: &mut [u8],
    at: usize,
    store: &[u8],
    o: ObjectNumber,
    offset: usize,
    n: usize,
) -> usize
    requires readable { Readable store.now o.0 offset n }
    requires n_in_bounds { at + n ≤ length reply.old }
    ensures { Wrote n reply.old reply.new at result (read_file store.now o.0 offset n) }
{
    // A step is as long as its run, so that no range has these steps.
    let mut done = 0;
    let mut next = at;
    while done < n {
        let i = offset + done;
        let run = run_length(store, o, i, n - done);
        let from = byte_at(store, o, i);
        next = put_bytes(reply, next, store, from, run);
        done += run;
    }
    next
}

// n bytes of an object's file from `offset`, as opaque data.
pub fn put_file_bytes(
    reply: &mut [u8],
    at: usize,
    store: &[u8],
    o: ObjectNumber,
    offset: usize,
    n: usize,
) -> usize
    requires readable { Readable store.now o.0 offset n }
    requires n_in_bounds { at + (4 + n + padding n) ≤ length reply.old }
    ensures { Wrote (4 + n + padding n) reply.old reply.new at result (opaque_bytes (read_file store.now o.0 offset n)) }
{
    let start = put_word(reply, at, n as u32);
    let end = put_runs(reply, start, store, o, offset, n);
    let zeros = padding(n);
    wire::clear_bytes(reply, end, zeros);
    end + zeros
}
