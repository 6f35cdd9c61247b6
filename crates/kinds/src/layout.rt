// Where things stand in a store image, and how long they are.
ghost use Rattle.std.specs.Prelude.{◌≡◌};
ghost use Rattle.kinds.specs.Layout.{layout};

// The image: where the stamp and the count of objects stand, and the bytes of counts and of the stamp before each section's records.
#[derive(Clone, Copy)]
pub struct Image(pub usize);

impl Image {
    pub const STAMP: usize = 4;

    pub const OBJECT_COUNT: usize = 8;

    pub const OBJECTS_HEAD: usize = 12;

    pub const NAMES_HEAD: usize = 16;

    pub const BLOCKS_HEAD: usize = 20;

    // The numbers of this file, in their order.
    pub fn layout() -> [usize; 25]
        ensures { result ≡ layout }
    {
        [
            Image::STAMP,
            Image::OBJECT_COUNT,
            Image::OBJECTS_HEAD,
            Image::NAMES_HEAD,
            Image::BLOCKS_HEAD,
            ObjectRecord::GENERATION,
            ObjectRecord::MODE,
            ObjectRecord::UID,
            ObjectRecord::GID,
            ObjectRecord::SIZE,
            ObjectRecord::ATIME,
            ObjectRecord::MTIME,
            ObjectRecord::CTIME,
            ObjectRecord::BLOCKS,
            ObjectRecord::VERIFIER,
            ObjectRecord::EXCLUSIVE,
            ObjectRecord::BYTES,
            ObjectRecord::OLD_BYTES,
            TimeField::NANOSECONDS,
            TimeField::BYTES,
            NameRecord::CHILD,
            NameRecord::LENGTH,
            NameRecord::TEXT,
            NameRecord::BYTES,
            Block::BYTES,
        ]
    }
}

// An object record: the type stands first, each other field at its offset.
#[derive(Clone, Copy)]
pub struct ObjectRecord(pub usize);

impl ObjectRecord {
    pub const GENERATION: usize = 4;

    pub const MODE: usize = 8;

    pub const UID: usize = 12;

    pub const GID: usize = 16;

    pub const SIZE: usize = 20;

    pub const ATIME: usize = 24;

    pub const MTIME: usize = 32;

    pub const CTIME: usize = 40;

    pub const BLOCKS: usize = 48;

    pub const VERIFIER: usize = 80;

    pub const EXCLUSIVE: usize = 88;

    pub const BYTES: usize = 92;

    // The bytes of a record in the layout of document 01, which the converter reads.
    pub const OLD_BYTES: usize = 80;
}

// A time: the seconds stand first.
#[derive(Clone, Copy)]
pub struct TimeField(pub usize);

impl TimeField {
    pub const NANOSECONDS: usize = 4;

    pub const BYTES: usize = 8;
}

// A name record: the directory stands first, each other field at its offset.
#[derive(Clone, Copy)]
pub struct NameRecord(pub usize);

impl NameRecord {
    pub const CHILD: usize = 4;

    pub const LENGTH: usize = 8;

    pub const TEXT: usize = 12;

    pub const BYTES: usize = 44;
}

#[derive(Clone, Copy)]
pub struct Block(pub usize);

impl Block {
    pub const BYTES: usize = 512;
}
