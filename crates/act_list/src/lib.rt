// READDIR.
#![tactic(auto)]

ghost use Rattle.std.specs.Prelude.{◌≡◌, ◌&&◌, ◌+◌, ◌≤◌, eqb, length};
ghost use Rattle.kinds.specs.Numbers.{most_name_bytes, listing_cost, entry_fixed_cost};
ghost use Rattle.kinds.specs.Layout.{text_offset};
ghost use Rattle.spec.specs.Image.{names};
ghost use Rattle.spec.specs.Procedures.{cut};
ghost use Rattle.spec.specs.Procedures.Listing.{named_entries, entries, entries_above, check_listing, check_readdir_in, readdir};
ghost use Rattle.laws.proofs.GoodRecords.{GoodRecords};
ghost use Rattle.results.specs.Meaning.{result_of};
ghost use Rattle.results.specs.Writable.{Writable};
ghost use Rattle.act_list.specs.Run.{cost, open_run, length_in, extended, run_of, listing_of};

use check_handles::failure::fail_showing;
use check_handles::handle::reach_directory;
use kinds::call::Part;
use kinds::layout::NameRecord;
use kinds::numbers::{Limit, ObjectNumber, Status};
use results::Reply;
use store_records::counts::{name_count, names_start};

// A run of entries: the room that is left, how many there are, and whether the next one did not fit.
#[derive(Clone, Copy)]
pub struct Run {
    pub room: usize,
    pub count: usize,
    pub full: bool,
}

// What an entry costs, by the length of its name.
fn entry_cost(long: usize) -> usize
    requires { long ≤ most_name_bytes }
    ensures { result ≡ cost long }
{
    Limit::ENTRY_FIXED_COST + (long + (4 - long % 4) % 4)
}

// Adds an entry above the given cookie to a run, by the length of its name; the first that does not fit ends the run.
#[tactic(auto, unfolding(crate::specs::Run::extended, crate::specs::Run::fitted))]
fn extend(run: Run, given: u64, cookie: u64, long: usize) -> Run
    requires long_le_most_name_bytes { long ≤ most_name_bytes }
    requires count_bound { run.count ≤ 200 }
    ensures { result ≡ extended given run cookie long }
{
    if cookie <= given || run.full {
        return run;
    }
    let price = entry_cost(long);
    if run.room < price {
        return Run { full: true, ..run };
    }
    Run {
        room: run.room - price,
        count: run.count + 1,
        full: false,
    }
}

// The length of the name of the record that starts at `at`; 0 where the record is not in the directory.
fn length_in(store: &[u8], at: usize, d: ObjectNumber) -> usize
    requires { at + text_offset ≤ length store.now }
    ensures { result ≡ length_in store.now at d.0 }
{
    if wire::get_u32(store, at) as usize != d.0 {
        return 0;
    }
    wire::get_u32(store, at + NameRecord::LENGTH) as usize
}

// The run of a directory's names above a cookie, in a room, after `count` entries; the first that does not fit ends it.
fn name_run(store: &[u8], d: ObjectNumber, given: u64, room: usize, count: usize) -> Run
    requires good_records { GoodRecords store.now }
    requires count_bound { count ≤ 2 }
    ensures { result ≡ run_of given (open_run room count) (named_entries store.now d.0 (names store.now)) }
{
    let first = names_start(store);
    let mut left = room;
    let mut found = count;
    for i in 0..name_count(store) {
        let long = length_in(store, first + NameRecord::BYTES * i, d);
        let number = i as u64 + 3;
        if long == 0 {
            continue;
        }
        if number <= given {
            continue;
        }
        let price = entry_cost(long);
        if left < price {
            return Run {
                room: left,
                count: found,
                full: true,
            };
        }
        left -= price;
        found += 1;
    }
    Run {
        room: left,
        count: found,
        full: false,
    }
}

// The run of a directory's entries above a cookie, in a room.
fn run_of(store: &[u8], d: ObjectNumber, given: u64, room: usize) -> Run
    requires { GoodRecords store.now }
    ensures { result ≡ run_of given (open_run room 0) (entries store.now d.0) }
{
    let start = Run {
        room,
        count: 0,
        full: false,
    };
    let dot = extend(start, given, 1, 1);
    let dots = extend(dot, given, 2, 2);
    if dots.full {
        return dots;
    }
    name_run(store, d, given, dots.room, dots.count)
}

// Whether something remains, and its first does not fit.
fn nothing_fits(run: Run) -> bool
    ensures { result ≡ run.full && eqb run.count 0 }
{
    run.full && run.count == 0
}

// How many entries are sent and whether nothing remains, or TOOSMALL.
fn check_listing(
    store: &[u8],
    d: ObjectNumber,
    given: u64,
    limit: usize,
) -> Result<(usize, bool), Status>
    requires { GoodRecords store.now }
    ensures { listing_of (entries_above given (entries store.now d.0)) result ≡ check_listing listing_cost entry_fixed_cost limit (entries_above given (entries store.now d.0)) }
{
    if limit < Limit::LISTING_COST {
        return Err(Status::TOOSMALL);
    }
    let run = run_of(store, d, given, limit - Limit::LISTING_COST);
    if nothing_fits(run) {
        return Err(Status::TOOSMALL);
    }
    Ok((run.count, !run.full))
}

// How many entries READDIR sends of a directory and whether nothing remains, or BAD_COOKIE or TOOSMALL.
#[tactic(auto, unfolding(spec::specs::Procedures::Listing::check_readdir_in))]
fn check_readdir_in(
    store: &[u8],
    d: ObjectNumber,
    cookie: u64,
    verifier: u64,
    count: u32,
) -> Result<(usize, bool), Status>
    requires { GoodRecords store.now }
    ensures { listing_of (entries_above cookie (entries store.now d.0)) result ≡ check_readdir_in store.now d.0 cookie verifier count }
{
    if verifier != 0 {
        return Err(Status::BAD_COOKIE);
    }
    let limit = wire::smaller(count as usize, Limit::MOST_TRANSFER_BYTES);
    check_listing(store, d, cookie, limit)
}

#[tactic(auto, unfolding(spec::specs::Procedures::Listing::check_readdir, spec::specs::Procedures::Listing::readdir))]
pub fn readdir(store: &[u8], call: &[u8], h: Part, cookie: u64, verifier: u64, count: u32) -> Reply
    requires good_records { GoodRecords store.now }
    requires length_in_bounds { h.start + h.length ≤ length call.now }
    ensures result_value { result_of store.now result ≡ (readdir store.now (cut call.now h) cookie verifier count).result }
    ensures writable { Writable store.now result }
{
    let d = match reach_directory(store, call, h) {
        Ok(d) => d,
        Err(status) => return fail_showing(store, call, h, status),
    };
    match check_readdir_in(store, d, cookie, verifier, count) {
        Ok((n, all)) => Reply::Listed(d, all, cookie, n),
        Err(status) => fail_showing(store, call, h, status),
    }
}
