// Times, objects, and attributes as they are shown.
ghost use Rattle.std.specs.Prelude.{◌≡◌};
ghost use Rattle.kinds.specs.Objects.{root_object};

use crate::numbers::{Kind, Limit};

#[derive(Clone, Copy, PartialEq, Eq)]
pub struct Time {
    pub seconds: u32,
    pub nanoseconds: u32,
}

// An object record of the store. The verifier is that of the EXCLUSIVE CREATE that made the file, and is kept where the flag `exclusive` is 1; else
// both are 0. The type and the flag are numbers: `object_at` gives the record of any bytes, which may hold every number until the store is checked.
#[derive(Clone, Copy)]
pub struct Object {
    pub kind: u32,
    pub generation: u32,
    pub mode: u32,
    pub uid: u32,
    pub gid: u32,
    pub size: u32,
    pub atime: Time,
    pub mtime: Time,
    pub ctime: Time,
    pub blocks: [u16; 16],
    pub verifier: u64,
    pub exclusive: u32,
}

impl Object {
    // The root of a store that is formatted at `clock`.
    pub fn root(clock: Time) -> Object
        ensures { result ≡ root_object clock }
    {
        Object {
            kind: Kind::DIRECTORY,
            generation: 0,
            mode: 493,
            uid: 0,
            gid: 0,
            size: 0,
            atime: clock,
            mtime: clock,
            ctime: clock,
            blocks: [Limit::UNUSED_BLOCK; 16],
            verifier: 0,
            exclusive: 0,
        }
    }
}

// The attributes of a live object as replies show them (fattr3), the type as the number that the reply holds; numbers of 64 bits have 0 as their
// high word.
#[derive(Clone, Copy)]
pub struct Attributes {
    pub kind: u32,
    pub mode: u32,
    pub nlink: u32,
    pub uid: u32,
    pub gid: u32,
    pub size: u32,
    pub used: u32,
    pub fsid: u32,
    pub fileid: u32,
    pub atime: Time,
    pub mtime: Time,
    pub ctime: Time,
}

// The attributes of an object before a call, as replies show them (wcc_attr).
#[derive(Clone, Copy)]
pub struct Before {
    pub size: u32,
    pub mtime: Time,
    pub ctime: Time,
}

// An object's attributes before and after a call (wcc_data, both present).
#[derive(Clone, Copy)]
pub struct Change {
    pub before: Before,
    pub after: Attributes,
}

// What the caller gives with a call: the clock, and the verifier that WRITE and COMMIT answer.
#[derive(Clone, Copy)]
pub struct Context {
    pub clock: Time,
    pub verifier: u64,
}
