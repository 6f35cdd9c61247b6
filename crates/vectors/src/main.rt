// Runs the steps of the files `vectors`, `searches` and `mounts` through the entries of the libraries and the search for a name, and prints a line for each
// thing that differs, the counts, and what the searches of a table found. The files in `data` and `stdout` are what the independent program in `peer`
// wrote (`peer/README.md`).
#![tactic(auto)]

mod entries;
mod search;

use entries::step;
use std::fs::File;
use std::io;
use std::io::{BufReader, Read};
use std::rt::Files;
use vector_file::buffers::{Buffers, CALL_ROOM, OLD_ROOM, REPLY_ROOM, STORE_ROOM, TABLE_ROOM};
use vector_file::judge::{SPACE_BYTE, goes_on};
use vector_file::report::print_fault;
use vector_file::rows::{read_row, take};
use vector_file::tags::Tag;

fn main(rt: HostRuntime) -> io::Result<()> {
    replay(&rt, "vectors")?;
    replay(&rt, "searches")?;
    replay(&rt, "mounts")
}

// Replays the file of this name.
fn replay<R: Files + Print + Eprint + AllocGlobal>(rt: &R, path: &str) -> io::Result<()> {
    match File::open(rt, path) {
        Ok(file) => {
            let mut reader = BufReader::new(rt.alloc(), file)?;
            run(rt, &mut reader)
        }
        Err(error) => print_not_opened(rt, path, &error),
    }
}

// Says, where errors are printed, why the file of this name was not opened, in the system's words alone.
fn print_not_opened(
    rt: &(impl Eprint + AllocGlobal),
    path: &str,
    error: &io::Error,
) -> io::Result<()> {
    let text = format!(in rt.alloc(); "{error}")?;
    match text.split_once(" (os error ") {
        Some((words, _)) => eprintln!(rt; "{path}: {words}"),
        None => eprintln!(rt; "{path}: {text}"),
    }
}

// Takes the next row of the file, and says whether there is more to read.
fn turn<R: Read>(rt: &impl Print, reader: &mut R, buffers: &mut Buffers) -> io::Result<bool> {
    let Some(row) = read_row(reader)? else {
        print_fault(rt, &buffers.numbers, u32::from(Tag::NONE))?;
        return Ok(false);
    };
    let tag = row.tag as usize;
    let good = if tag < Tag::FIRST_ENTRY {
        take(rt, reader, row, buffers)?
    } else {
        step(tag, buffers).is_some()
    };
    if !good {
        print_fault(rt, &buffers.numbers, u32::from(row.tag))?;
        return Ok(false);
    }
    goes_on(rt, row, buffers)
}

// The most rows that are read of a file.
const MOST_ROWS: u32 = 10000000;

// Runs the rows of the file.
fn run<R: Read>(rt: &impl Print, reader: &mut R) -> io::Result<()> {
    let mut buffers = Buffers {
        numbers: [0; 256],
        store: [0; STORE_ROOM],
        call: [0; CALL_ROOM],
        reply: [SPACE_BYTE; REPLY_ROOM],
        want: [SPACE_BYTE; REPLY_ROOM],
        old: [0; OLD_ROOM],
        table: [0; TABLE_ROOM],
    };
    for _ in 0..MOST_ROWS {
        if !turn(rt, reader, &mut buffers)? {
            break;
        }
    }
    Ok(())
}
