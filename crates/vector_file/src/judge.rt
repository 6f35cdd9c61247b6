// What came back against what is wanted.
use crate::buffers::{Buffers, LAST_PLACE, first_difference};
use crate::numbers::{Numbers, count};
use crate::report::{print_difference, print_total};
use crate::rows::Row;
use crate::tags::Tag;
use std::io;

// The byte of a reply space before a call.
pub const SPACE_BYTE: u8 = 0x5A;

// Puts into the table how far the reply space is as wanted, and the byte there; gives both spaces the bytes of new ones.
fn compare_reply(buffers: &mut Buffers) {
    let at = first_difference(&buffers.reply, &buffers.want);
    buffers.numbers[Tag::REPLY_PLACE] = LAST_PLACE as u32;
    buffers.numbers[Tag::REPLY_PLACE + Tag::FOUND] = at as u32;
    buffers.numbers[Tag::REPLY_BYTE] = u32::from(buffers.want[at]);
    buffers.numbers[Tag::REPLY_BYTE + Tag::FOUND] = u32::from(buffers.reply[at]);
    buffers.reply.fill(SPACE_BYTE);
    buffers.want.fill(SPACE_BYTE);
}

// Compares every number that must come back with the one that did.
fn compare_numbers(rt: &impl Print, numbers: &mut Numbers) -> io::Result<()> {
    for tag in Tag::FIRST_WANTED..=Tag::REPLY_BYTE {
        let wanted = numbers[tag];
        let found = numbers[tag + Tag::FOUND];
        if found != wanted {
            print_difference(rt, numbers, tag, found, wanted)?;
        }
    }
    Ok(())
}

// Compares all that came back from the entry of a row.
fn judge(rt: &impl Print, row: Row, buffers: &mut Buffers) -> io::Result<()> {
    count(&mut buffers.numbers, row.tag as usize);
    count(&mut buffers.numbers, Tag::STEP);
    buffers.numbers[Tag::NUMBER] = row.word;
    compare_reply(buffers);
    compare_numbers(rt, &mut buffers.numbers)
}

// After a row that was taken: compares what came back, if it called an entry, and says whether there is more to read. If not, prints the last line.
pub fn goes_on(rt: &impl Print, row: Row, buffers: &mut Buffers) -> io::Result<bool> {
    let tag = row.tag as usize;
    if tag == Tag::END {
        print_total(rt, &buffers.numbers)?;
        return Ok(false);
    }
    if tag >= Tag::FIRST_ENTRY {
        judge(rt, row, buffers)?;
    }
    Ok(true)
}
