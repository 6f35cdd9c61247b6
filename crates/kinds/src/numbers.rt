// Statuses, procedures, limits and answers as constants of their types, and the numbers of records and blocks.
ghost use Rattle.std.specs.Prelude.{◌≡◌};
ghost use Rattle.kinds.specs.Numbers.{statuses, procedures, limits, answers, messages, kinds, zero_words};

// The number of an object, of a name record and of a block: three types, so that none is taken for another. A block number has two bytes, as an
// object record holds it.
#[derive(Clone, Copy, Debug, PartialEq, Eq)]
pub struct ObjectNumber(pub usize);

#[derive(Clone, Copy, Debug, PartialEq, Eq)]
pub struct NameNumber(pub usize);

#[derive(Clone, Copy, Debug, PartialEq, Eq)]
pub struct BlockNumber(pub u16);

// An NFS version 3 status, RFC 1813 section 2.6.
#[derive(Clone, Copy, Debug, PartialEq, Eq)]
pub struct Status(pub u32);

impl Status {
    pub const OK: Status = Status(0);

    pub const NOENT: Status = Status(2);

    pub const ACCES: Status = Status(13);

    pub const EXIST: Status = Status(17);

    pub const NOTDIR: Status = Status(20);

    pub const INVAL: Status = Status(22);

    pub const FBIG: Status = Status(27);

    pub const NOSPC: Status = Status(28);

    pub const MLINK: Status = Status(31);

    pub const NAMETOOLONG: Status = Status(63);

    pub const NOTEMPTY: Status = Status(66);

    pub const STALE: Status = Status(70);

    pub const BADHANDLE: Status = Status(10001);

    pub const NOT_SYNC: Status = Status(10002);

    pub const BAD_COOKIE: Status = Status(10003);

    pub const NOTSUPP: Status = Status(10004);

    pub const TOOSMALL: Status = Status(10005);

    pub const SERVERFAULT: Status = Status(10006);

    // The numbers of the constants above, in their order.
    pub fn numbers() -> [u32; 18]
        ensures { result ≡ statuses }
    {
        [
            Status::OK.0,
            Status::NOENT.0,
            Status::ACCES.0,
            Status::EXIST.0,
            Status::NOTDIR.0,
            Status::INVAL.0,
            Status::FBIG.0,
            Status::NOSPC.0,
            Status::MLINK.0,
            Status::NAMETOOLONG.0,
            Status::NOTEMPTY.0,
            Status::STALE.0,
            Status::BADHANDLE.0,
            Status::NOT_SYNC.0,
            Status::BAD_COOKIE.0,
            Status::NOTSUPP.0,
            Status::TOOSMALL.0,
            Status::SERVERFAULT.0,
        ]
    }
}

// A procedure of NFS version 3, RFC 1813 section 3.
#[derive(Clone, Copy)]
pub struct Procedure(pub u32);

impl Procedure {
    pub const NULL: u32 = 0;

    pub const GETATTR: u32 = 1;

    pub const SETATTR: u32 = 2;

    pub const LOOKUP: u32 = 3;

    pub const ACCESS: u32 = 4;

    pub const READLINK: u32 = 5;

    pub const READ: u32 = 6;

    pub const WRITE: u32 = 7;

    pub const CREATE: u32 = 8;

    pub const MKDIR: u32 = 9;

    pub const SYMLINK: u32 = 10;

    pub const MKNOD: u32 = 11;

    pub const REMOVE: u32 = 12;

    pub const RMDIR: u32 = 13;

    pub const RENAME: u32 = 14;

    pub const LINK: u32 = 15;

    pub const READDIR: u32 = 16;

    pub const READDIRPLUS: u32 = 17;

    pub const FSSTAT: u32 = 18;

    pub const FSINFO: u32 = 19;

    pub const PATHCONF: u32 = 20;

    pub const COMMIT: u32 = 21;

    // The zero words of a failure body with no live handle, by procedure.
    pub const ZERO_WORDS: [usize; 22] = [
        0, 0, 2, 1, 1, 1, 1, 2, 2, 2, 2, 2, 2, 2, 4, 3, 1, 1, 1, 1, 1, 2,
    ];

    // The numbers of the constants above, in their order.
    pub fn numbers() -> [u32; 22]
        ensures { result ≡ procedures }
    {
        [
            Procedure::NULL,
            Procedure::GETATTR,
            Procedure::SETATTR,
            Procedure::LOOKUP,
            Procedure::ACCESS,
            Procedure::READLINK,
            Procedure::READ,
            Procedure::WRITE,
            Procedure::CREATE,
            Procedure::MKDIR,
            Procedure::SYMLINK,
            Procedure::MKNOD,
            Procedure::REMOVE,
            Procedure::RMDIR,
            Procedure::RENAME,
            Procedure::LINK,
            Procedure::READDIR,
            Procedure::READDIRPLUS,
            Procedure::FSSTAT,
            Procedure::FSINFO,
            Procedure::PATHCONF,
            Procedure::COMMIT,
        ]
    }

    // The table of zero words.
    pub fn zero_words() -> [usize; 22]
        ensures { result ≡ zero_words }
    {
        Procedure::ZERO_WORDS
    }
}

// What a message must say to be a call of NFS version 3, and what a reply says, RFC 5531 section 9.
#[derive(Clone, Copy)]
pub struct Message(pub u32);

impl Message {
    pub const CALL: u32 = 0;

    pub const REPLY: u32 = 1;

    pub const ACCEPTED: u32 = 0;

    pub const DENIED: u32 = 1;

    pub const RPC_MISMATCH: u32 = 0;

    pub const RPC_VERSION: u32 = 2;

    pub const PROGRAM: u32 = 100003;

    pub const VERSION: u32 = 3;

    pub const SUCCESS: u32 = 0;

    pub const PROG_UNAVAIL: u32 = 1;

    pub const PROG_MISMATCH: u32 = 2;

    pub const PROC_UNAVAIL: u32 = 3;

    pub const GARBAGE_ARGS: u32 = 4;

    // The numbers of the constants above, in their order.
    pub fn numbers() -> [u32; 13]
        ensures { result ≡ messages }
    {
        [
            Message::CALL,
            Message::REPLY,
            Message::ACCEPTED,
            Message::DENIED,
            Message::RPC_MISMATCH,
            Message::RPC_VERSION,
            Message::PROGRAM,
            Message::VERSION,
            Message::SUCCESS,
            Message::PROG_UNAVAIL,
            Message::PROG_MISMATCH,
            Message::PROC_UNAVAIL,
            Message::GARBAGE_ARGS,
        ]
    }
}

// The type of an object.
#[derive(Clone, Copy)]
pub struct Kind(pub u32);

impl Kind {
    pub const FREE: u32 = 0;

    pub const REGULAR: u32 = 1;

    pub const DIRECTORY: u32 = 2;

    // The numbers of the constants above, in their order.
    pub fn numbers() -> [u32; 3]
        ensures { result ≡ kinds }
    {
        [Kind::FREE, Kind::REGULAR, Kind::DIRECTORY]
    }
}

// The limits, lengths and costs of the rules.
#[derive(Clone, Copy)]
pub struct Limit(pub u64);

impl Limit {
    // The least reply space, and the longest call.
    pub const LEAST_REPLY_BYTES: usize = 4224;

    pub const MOST_CALL_BYTES: usize = 8192;

    // Nanoseconds are below this.
    pub const NANOSECONDS_END: u32 = 1000000000;

    // The largest counts of a store.
    pub const MOST_OBJECTS: usize = 64;

    pub const MOST_NAME_RECORDS: usize = 128;

    pub const MOST_BLOCKS: usize = 1024;

    // The block numbers of one object, the number of an unused one, the flag of a file that keeps a verifier, and the largest file.
    pub const FILE_BLOCKS: usize = 16;

    pub const UNUSED_BLOCK: u16 = 65535;

    pub const KEPT_FLAG: u32 = 1;

    pub const MOST_FILE_BYTES: u64 = 8192;

    // The generation that is never given out, and the largest mode.
    pub const SPENT_GENERATION: u32 = 4294967295;

    pub const MOST_MODE: u32 = 4095;

    // The longest name, the bytes of our handles, the longest handle, and the longest credential or verifier.
    pub const MOST_NAME_BYTES: usize = 32;

    pub const HANDLE_BYTES: usize = 12;

    pub const MOST_HANDLE_BYTES: usize = 64;

    pub const MOST_CREDENTIAL_BYTES: usize = 400;

    // The most bytes that one READ, WRITE or READDIR moves.
    pub const MOST_TRANSFER_BYTES: usize = 4096;

    // What PATHCONF, WRITE and FSINFO say: the names of an object, how stable written bytes are, and what the file system can do.
    pub const MOST_LINKS: u32 = 16;

    pub const FILE_SYNC: u32 = 2;

    pub const PROPERTIES: u32 = 0x19;

    // What a listing costs, and each entry besides its padded name.
    pub const LISTING_COST: usize = 104;

    pub const ENTRY_FIXED_COST: usize = 24;

    // The rights that ACCESS grants of a file and of a directory.
    pub const FILE_RIGHTS: u32 = 0x2D;

    pub const DIRECTORY_RIGHTS: u32 = 0x1F;

    // The numbers of the constants above, in their order.
    pub fn numbers() -> [u64; 24]
        ensures { result ≡ limits }
    {
        [
            Limit::LEAST_REPLY_BYTES as u64,
            Limit::MOST_CALL_BYTES as u64,
            Limit::NANOSECONDS_END as u64,
            Limit::MOST_OBJECTS as u64,
            Limit::MOST_NAME_RECORDS as u64,
            Limit::MOST_BLOCKS as u64,
            Limit::FILE_BLOCKS as u64,
            Limit::UNUSED_BLOCK as u64,
            Limit::KEPT_FLAG as u64,
            Limit::MOST_FILE_BYTES,
            Limit::SPENT_GENERATION as u64,
            Limit::MOST_MODE as u64,
            Limit::MOST_NAME_BYTES as u64,
            Limit::HANDLE_BYTES as u64,
            Limit::MOST_HANDLE_BYTES as u64,
            Limit::MOST_CREDENTIAL_BYTES as u64,
            Limit::MOST_TRANSFER_BYTES as u64,
            Limit::MOST_LINKS as u64,
            Limit::FILE_SYNC as u64,
            Limit::PROPERTIES as u64,
            Limit::LISTING_COST as u64,
            Limit::ENTRY_FIXED_COST as u64,
            Limit::FILE_RIGHTS as u64,
            Limit::DIRECTORY_RIGHTS as u64,
        ]
    }
}

// The answer of an entry: its number, the length of the reply, and the byte of the call at which a field starts that cannot be read. The number is
// one that C reads: the constants below are those of include/nfs3.h, and an enum would have to become them again.
#[repr(C)]
#[derive(Clone, Copy)]
pub struct Answer {
    pub number: u32,
    pub length: u32,
    pub offset: u32,
}

impl Answer {
    pub const DONE: u32 = 0;

    pub const STORE: u32 = 1;

    pub const REPLY_SPACE: u32 = 2;

    pub const CLOCK: u32 = 3;

    pub const CALL: u32 = 4;

    pub const MESSAGE: u32 = 5;

    pub const FORMAT: u32 = 6;

    pub const MESSAGE_TYPE: u32 = 7;

    pub const HEADER: u32 = 8;

    pub const CREDENTIAL: u32 = 9;

    pub const TABLE: u32 = 12;

    // The numbers of the constants above, in their order.
    pub fn numbers() -> [u32; 11]
        ensures { result ≡ answers }
    {
        [
            Answer::DONE,
            Answer::STORE,
            Answer::REPLY_SPACE,
            Answer::CLOCK,
            Answer::CALL,
            Answer::MESSAGE,
            Answer::FORMAT,
            Answer::MESSAGE_TYPE,
            Answer::HEADER,
            Answer::CREDENTIAL,
            Answer::TABLE,
        ]
    }
}

// Why the header of a call is refused: the number of the answer, as C reads it, and its offset.
#[derive(Clone, Copy)]
pub struct Fault {
    pub number: u32,
    pub offset: u32,
}
