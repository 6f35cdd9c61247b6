// The calls of the entries, and the searches.
use crate::search::search;
use kinds::numbers::Answer;
use vector_file::buffers::{Buffers, digest};
use vector_file::numbers::{Numbers, hyper};
use vector_file::tags::Tag;

// Calls `nfs3_format` with the numbers of the table.
fn format(numbers: &Numbers, store: &mut [u8]) -> Answer {
    nfs3::nfs3_format(
        store,
        numbers[Tag::STAMP],
        numbers[Tag::OBJECTS],
        numbers[Tag::NAMES],
        numbers[Tag::BLOCKS],
        numbers[Tag::SECONDS],
        numbers[Tag::NANOSECONDS],
    )
}

// Calls `nfs3_call` with the numbers of the table.
fn send(numbers: &Numbers, store: &mut [u8], call: &[u8], reply: &mut [u8]) -> Answer {
    let verifier = hyper(numbers[Tag::VERIFIER], numbers[Tag::VERIFIER + 1]);
    nfs3::nfs3_call(
        call,
        store,
        reply,
        numbers[Tag::SECONDS],
        numbers[Tag::NANOSECONDS],
        verifier,
    )
}

// Calls `mount3_call` with the numbers of the table, and puts there the digest of the mount table after it.
fn mount(
    numbers: &mut Numbers,
    store: &[u8],
    call: &[u8],
    table: &mut [u8],
    reply: &mut [u8],
) -> Answer {
    let answer = mount3::mount3_call(call, store, table, reply, numbers[Tag::HOST]);
    let lanes = digest(table);
    numbers[Tag::TABLE_DIGEST + Tag::FOUND] = lanes.first;
    numbers[Tag::TABLE_DIGEST + Tag::FOUND + 1] = lanes.second;
    answer
}

// Lends the buffers to the entry of this tag, and puts what comes back into the table; none where there is no such entry or no store to search, or a
// buffer has no such length.
pub fn step(tag: usize, buffers: &mut Buffers) -> Option<()> {
    let numbers = &mut buffers.numbers;
    let store = buffers
        .store
        .get_mut(..numbers[Tag::STORE_LENGTH] as usize)?;
    let call = buffers.call.get(..numbers[Tag::CALL_LENGTH] as usize)?;
    let reply = buffers
        .reply
        .get_mut(..numbers[Tag::REPLY_LENGTH] as usize)?;
    let old = buffers.old.get(..numbers[Tag::OLD_LENGTH] as usize)?;
    let table = buffers
        .table
        .get_mut(..numbers[Tag::TABLE_LENGTH] as usize)?;
    let answer = match tag {
        Tag::FORMAT_ENTRY => format(numbers, store),
        Tag::CHECK_ENTRY => nfs3::nfs3_check(store),
        Tag::CALL_ENTRY => send(numbers, store, call, reply),
        Tag::CONVERT_ENTRY => nfs3::nfs3_convert(old, store),
        Tag::SEARCH_ENTRY => search(numbers, store, call)?,
        Tag::MOUNT_ENTRY => mount(numbers, store, call, table, reply),
        _ => return None,
    };
    let lanes = digest(store);
    numbers[Tag::NUMBER + Tag::FOUND] = answer.number;
    numbers[Tag::LENGTH + Tag::FOUND] = answer.length;
    numbers[Tag::OFFSET + Tag::FOUND] = answer.offset;
    numbers[Tag::STORE_DIGEST + Tag::FOUND] = lanes.first;
    numbers[Tag::STORE_DIGEST + Tag::FOUND + 1] = lanes.second;
    Some(())
}
