// What is printed: a line for each thing that differs, and the last line.
use crate::numbers::{Numbers, count};
use crate::tags::Tag;
use std::io;

// Counts and prints a number that did not come back as wanted.
pub fn print_difference(
    rt: &impl Print,
    numbers: &mut Numbers,
    tag: usize,
    found: u32,
    wanted: u32,
) -> io::Result<()> {
    count(numbers, Tag::DIFFERENCES);
    let run = numbers[Tag::RUN];
    let step = numbers[Tag::STEP];
    println!(rt; "run {run}, step {step}: number {tag} is {found}, not {wanted}")
}

// Ends a line by what the last search found and how many byte pairs it compared.
pub fn print_search(rt: &impl Print, numbers: &Numbers) -> io::Result<()> {
    let pairs = numbers[Tag::PAIRS + Tag::FOUND];
    match numbers[Tag::SEARCHED].checked_sub(1) {
        Some(record) => println!(rt; " record {record}, {pairs} pairs"),
        None => println!(rt; " no record, {pairs} pairs"),
    }
}

// The last line where a row is at fault: the file is cut, the tag is unknown, or the word does not fit the buffers or the runs so far.
pub fn print_fault(rt: &impl Print, numbers: &Numbers, tag: u32) -> io::Result<()> {
    let run = numbers[Tag::RUN];
    let step = numbers[Tag::STEP];
    println!(rt; "run {run}, step {step}: the file is at fault in a row of tag {tag}")
}

// The last line: how many steps of each kind there were.
pub fn print_total(rt: &impl Print, numbers: &Numbers) -> io::Result<()> {
    let runs = numbers[Tag::RUN];
    let calls = numbers[Tag::CALL_ENTRY];
    let formats = numbers[Tag::FORMAT_ENTRY];
    let checks = numbers[Tag::CHECK_ENTRY];
    print!(rt; "total: {runs} runs, {calls} calls, {formats} formats, {checks} checks, ")?;
    let conversions = numbers[Tag::CONVERT_ENTRY];
    let searches = numbers[Tag::SEARCH_ENTRY];
    let mounts = numbers[Tag::MOUNT_ENTRY];
    let differences = numbers[Tag::DIFFERENCES];
    println!(rt;
        "{conversions} conversions, {searches} searches, {mounts} mounts, {differences} differences"
    )
}
