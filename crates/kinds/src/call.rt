// The values that are read from a call. A run of bytes is a part of the call; nothing is copied.
use crate::object::Time;

// The bytes of the call from `start` on, `length` of them.
#[derive(Clone, Copy)]
pub struct Part {
    pub start: usize,
    pub length: usize,
}

// Where reading goes on.
#[derive(Clone, Copy)]
pub struct Cursor {
    pub at: usize,
}

// set_atime, set_mtime.
#[derive(Clone, Copy)]
pub enum SetTime {
    Keep,
    ToServer,
    ToClient(Time),
}

// The settable attributes: sattr3. A number that is not given keeps its value (set_mode3, set_uid3, set_gid3, set_size3).
#[derive(Clone, Copy)]
pub struct Settable {
    pub mode: Option<u32>,
    pub uid: Option<u32>,
    pub gid: Option<u32>,
    pub size: Option<u64>,
    pub atime: SetTime,
    pub mtime: SetTime,
}

// A name in a directory: diropargs3.
#[derive(Clone, Copy)]
pub struct NameIn {
    pub directory: Part,
    pub name: Part,
}

// createhow3.
#[derive(Clone, Copy)]
pub enum How {
    Unchecked(Settable),
    Guarded(Settable),
    Exclusive(u64),
}

// What was read of a call's arguments, by procedure.
#[derive(Clone, Copy)]
pub enum Arguments {
    Null,
    Getattr(Part),
    // The handle, the attributes, and the ctime that the object must have where one is given (sattrguard3).
    Setattr(Part, Settable, Option<Time>),
    Lookup(NameIn),
    Access(Part, u32),
    Read(Part, u64, u32),
    // The handle, the offset, the count and the bytes.
    Write(Part, u64, u32, Part),
    Create(NameIn, How),
    Mkdir(NameIn, Settable),
    Remove(NameIn),
    Rmdir(NameIn),
    Rename(NameIn, NameIn),
    // The file, and the name that is added.
    Link(Part, NameIn),
    // The handle, the cookie, its verifier and the count.
    Readdir(Part, u64, u64, u32),
    Fsstat(Part),
    Fsinfo(Part),
    Pathconf(Part),
    Commit(Part),
    // The four procedures whose arguments stay unread.
    Unserved,
}

// opaque_auth.
#[derive(Clone, Copy)]
pub struct Credential {
    pub flavor: u32,
    pub body: Part,
}

// The header of a call with RPC version 2.
#[derive(Clone, Copy)]
pub struct CallHeader {
    pub xid: u32,
    pub program: u32,
    pub version: u32,
    pub procedure: u32,
    pub credential: Credential,
    pub verifier: Credential,
}

// A message that is a call: of another RPC version than 2, with its xid, or with its header.
#[derive(Clone, Copy)]
pub enum Header {
    OtherVersion(u32),
    Call(CallHeader),
}
