// What the procedures of MOUNT answer: the value from which a reply is written.
#![tactic(auto)]

use kinds::numbers::{ObjectNumber, Status};

// What a reply says: nothing; a status of MNT; the directory that MNT mounts; the list of mounts; the list of exports.
#[derive(Clone, Copy)]
pub enum MountReply {
    Nothing,
    Failed(Status),
    Mounted(ObjectNumber),
    Mounts,
    Exports,
}
