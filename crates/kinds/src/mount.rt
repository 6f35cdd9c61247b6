// MOUNT version 3 (RFC 1813 appendix I): its numbers, where things stand in the mount table, and the values that are read from its calls.
ghost use Rattle.std.specs.Prelude.{◌≡◌};
ghost use Rattle.kinds.specs.Mount.{mount_procedures, mount_numbers};

use crate::call::Part;

// A procedure of MOUNT version 3, RFC 1813 section 5.2.
#[derive(Clone, Copy)]
pub struct MountProcedure(pub u32);

impl MountProcedure {
    pub const NULL: u32 = 0;

    pub const MNT: u32 = 1;

    pub const DUMP: u32 = 2;

    pub const UMNT: u32 = 3;

    pub const UMNTALL: u32 = 4;

    pub const EXPORT: u32 = 5;

    // The numbers of the constants above, in their order.
    pub fn numbers() -> [u32; 6]
        ensures { result ≡ mount_procedures }
    {
        [
            MountProcedure::NULL,
            MountProcedure::MNT,
            MountProcedure::DUMP,
            MountProcedure::UMNT,
            MountProcedure::UMNTALL,
            MountProcedure::EXPORT,
        ]
    }
}

// The program, its version, the flavors of credentials that MNT lists, and the least reply space.
#[derive(Clone, Copy)]
pub struct Mount(pub u64);

impl Mount {
    pub const PROGRAM: u32 = 100005;

    pub const VERSION: u32 = 3;

    pub const AUTH_NONE: u32 = 0;

    pub const AUTH_UNIX: u32 = 1;

    pub const LEAST_REPLY_BYTES: usize = 33692;

    // The numbers of the constants above and of the rows, in their order.
    pub fn numbers() -> [u64; 11]
        ensures { result ≡ mount_numbers }
    {
        [
            Mount::PROGRAM as u64,
            Mount::VERSION as u64,
            Mount::AUTH_NONE as u64,
            Mount::AUTH_UNIX as u64,
            Mount::LEAST_REPLY_BYTES as u64,
            Row::COUNT as u64,
            Row::MOST_PATH_BYTES as u64,
            Row::PATH_LENGTH as u64,
            Row::PATH as u64,
            Row::BYTES as u64,
            Row::TABLE_BYTES as u64,
        ]
    }
}

// The number of a row of the mount table.
#[derive(Clone, Copy)]
pub struct RowNumber(pub usize);

// The rows of the mount table: how many there are, the longest path, where the fields of one stand after its host, and how long one and all are.
#[derive(Clone, Copy)]
pub struct Row(pub usize);

impl Row {
    pub const COUNT: usize = 32;

    pub const MOST_PATH_BYTES: usize = 1024;

    pub const PATH_LENGTH: usize = 4;

    pub const PATH: usize = 8;

    pub const BYTES: usize = 1032;

    pub const TABLE_BYTES: usize = 33024;
}

// What was read of the arguments of a call of MOUNT, by procedure.
#[derive(Clone, Copy)]
pub enum MountArguments {
    Null,
    Mnt(Part),
    Dump,
    Umnt(Part),
    Umntall,
    Export,
}
