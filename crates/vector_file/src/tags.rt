// What the rows of the file name. A row is a tag of one byte and a word of four; the table of numbers has a place for every tag.
#[derive(Clone, Copy)]
pub struct Tag(pub usize);

impl Tag {
    // Numbers that an entry is given: how much is lent of the store, the call and the reply space, ..
    pub const STORE_LENGTH: usize = 0;

    pub const CALL_LENGTH: usize = 1;

    pub const REPLY_LENGTH: usize = 2;

    // .. where the bytes of the next row of bytes go, ..
    pub const PLACE: usize = 3;

    // .. and what is no buffer. A number of 64 bits has two tags, its upper half first.
    pub const SECONDS: usize = 4;

    pub const NANOSECONDS: usize = 5;

    pub const VERIFIER: usize = 6;

    pub const STAMP: usize = 8;

    pub const OBJECTS: usize = 9;

    pub const NAMES: usize = 10;

    pub const BLOCKS: usize = 11;

    // How much is lent of the old image that is converted.
    pub const OLD_LENGTH: usize = 12;

    // The directory that is searched: its object's number.
    pub const DIRECTORY: usize = 13;

    // How much is lent of the mount table, and the host that calls MOUNT.
    pub const TABLE_LENGTH: usize = 14;

    pub const HOST: usize = 15;

    pub const LAST_GIVEN: usize = 15;

    // Numbers that must come back: the answer's length, the digest of the store, the byte pairs that the last search compared, the digest of the mount table
    // after the last call of MOUNT, the answer's offset, ..
    pub const FIRST_WANTED: usize = 64;

    pub const LENGTH: usize = 64;

    pub const STORE_DIGEST: usize = 65;

    pub const PAIRS: usize = 67;

    pub const TABLE_DIGEST: usize = 68;

    pub const OFFSET: usize = 70;

    pub const LAST_WANTED: usize = 70;

    // .. and those that no row of their own sets: the answer's number, how far the reply space is as wanted, and the byte there.
    pub const NUMBER: usize = 93;

    pub const REPLY_PLACE: usize = 94;

    pub const REPLY_BYTE: usize = 95;

    // So much above the tag of a number that must come back is the place of the number that did.
    pub const FOUND: usize = 32;

    // Bytes, as many as the row's word says: of the store, of the call, of the reply that is wanted, and of the old image.
    pub const STORE: usize = 128;

    pub const CALL: usize = 129;

    pub const REPLY: usize = 130;

    pub const OLD: usize = 131;

    // .. of a text that is printed, and of the mount table.
    pub const TEXT: usize = 132;

    pub const TABLE: usize = 133;

    // A new run, and the end of the file. The word is the number of runs so far.
    pub const RUN: usize = 192;

    pub const END: usize = 193;

    // Prints what the last search found.
    pub const SHOW: usize = 194;

    // Makes the mount table zero.
    pub const CLEAR_TABLE: usize = 195;

    // Calls of an entry, and searches. The word is the number that must be answered.
    pub const FIRST_ENTRY: usize = 224;

    pub const FORMAT_ENTRY: usize = 224;

    pub const CHECK_ENTRY: usize = 225;

    pub const CALL_ENTRY: usize = 226;

    pub const CONVERT_ENTRY: usize = 227;

    pub const SEARCH_ENTRY: usize = 228;

    pub const MOUNT_ENTRY: usize = 229;

    // What the last search answered: 0, or one more than the number of the record that it found.
    pub const SEARCHED: usize = 252;

    // The steps of the run, and how many things differed.
    pub const STEP: usize = 253;

    pub const DIFFERENCES: usize = 254;

    // What is named where a row is not there.
    pub const NONE: u8 = 255;
}
