// Reading the file row by row.
use crate::buffers::Buffers;
use crate::numbers::count;
use crate::report::print_search;
use crate::tags::Tag;
use std::io;
use std::io::{ErrorKind, Read};

// The byte of a new store.
const STORE_BYTE: u8 = 0xA5;

#[derive(Clone, Copy)]
pub struct Row {
    pub tag: u8,
    pub word: u32,
}

// Reads until buf is full; false where the file ends before that.
fn read_full<R: Read>(reader: &mut R, buf: &mut [u8]) -> io::Result<bool> {
    match reader.read_exact(buf) {
        Ok(()) => Ok(true),
        Err(error) if error.kind() == ErrorKind::UnexpectedEof => Ok(false),
        Err(error) => Err(error),
    }
}

// The next row; none where the file has ended.
pub fn read_row<R: Read>(reader: &mut R) -> io::Result<Option<Row>> {
    let mut bytes = [0u8; 5];
    if !read_full(reader, &mut bytes)? {
        return Ok(None);
    }
    Ok(Some(Row {
        tag: bytes[0],
        word: wire::get_u32(&bytes, 1),
    }))
}

// Reads n bytes to buf from this place on, inside what is lent of it.
fn read_bytes<R: Read>(
    reader: &mut R,
    buf: &mut [u8],
    place: u32,
    n: u32,
    lent: u32,
) -> io::Result<bool> {
    let from = place as usize;
    let to = from + n as usize;
    if to > buf.len() || to > lent as usize {
        return Ok(false);
    }
    read_full(reader, &mut buf[from..to])
}

// The longest text that is printed.
const TEXT_ROOM: usize = 160;

// Prints the n bytes that follow in the file.
fn copy_text<R: Read>(rt: &impl Print, reader: &mut R, n: u32) -> io::Result<bool> {
    let mut room = [0u8; TEXT_ROOM];
    let Some(text) = room.get_mut(..n as usize) else {
        return Ok(false);
    };
    if !read_full(reader, text)? {
        return Ok(false);
    }
    rt.write_all(text)?;
    Ok(true)
}

// Takes a row that calls no entry: false where it is at fault.
pub fn take<R: Read>(
    rt: &impl Print,
    reader: &mut R,
    row: Row,
    buffers: &mut Buffers,
) -> io::Result<bool> {
    let tag = row.tag as usize;
    let word = row.word;
    let place = buffers.numbers[Tag::PLACE];
    match tag {
        0..=Tag::LAST_GIVEN | Tag::FIRST_WANTED..=Tag::LAST_WANTED => {
            buffers.numbers[tag] = word;
            Ok(true)
        }
        Tag::STORE => {
            let lent = buffers.numbers[Tag::STORE_LENGTH];
            read_bytes(reader, &mut buffers.store, place, word, lent)
        }
        Tag::CALL => {
            let lent = buffers.numbers[Tag::CALL_LENGTH];
            read_bytes(reader, &mut buffers.call, place, word, lent)
        }
        Tag::REPLY => {
            let lent = buffers.numbers[Tag::REPLY_LENGTH];
            read_bytes(reader, &mut buffers.want, place, word, lent)
        }
        Tag::OLD => {
            let lent = buffers.numbers[Tag::OLD_LENGTH];
            read_bytes(reader, &mut buffers.old, place, word, lent)
        }
        Tag::TEXT => copy_text(rt, reader, word),
        Tag::TABLE => {
            let lent = buffers.numbers[Tag::TABLE_LENGTH];
            read_bytes(reader, &mut buffers.table, place, word, lent)
        }
        Tag::SHOW => {
            print_search(rt, &buffers.numbers)?;
            Ok(word == 0)
        }
        Tag::CLEAR_TABLE => {
            buffers.table.fill(0);
            Ok(word == 0)
        }
        Tag::RUN => {
            count(&mut buffers.numbers, Tag::RUN);
            buffers.numbers[Tag::STEP] = 0;
            buffers.store.fill(STORE_BYTE);
            Ok(buffers.numbers[Tag::RUN] == word)
        }
        Tag::END => Ok(buffers.numbers[Tag::RUN] == word),
        _ => Ok(false),
    }
}
