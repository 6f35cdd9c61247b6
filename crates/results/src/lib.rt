// What a procedure gives, as a value: the reply is written from it and from the store that the procedure leaves.
#![tactic(auto)]

use kinds::numbers::{ObjectNumber, Status};
use kinds::object::Before;

// wcc_data, both parts present: an object's attributes before the call, and the object, whose attributes are shown as they are after it.
#[derive(Clone, Copy)]
pub struct ObjectChange {
    pub before: Before,
    pub object: ObjectNumber,
}

// An object number stands for the attributes of the object in the store.
#[derive(Clone, Copy)]
pub enum Reply {
    Null,
    // A failure with no live handle.
    Dead(Status),
    // A failure that shows the attributes of the handle's object.
    Failed(Status, ObjectNumber),
    // SETATTR, REMOVE and RMDIR, and every failure that shows a change.
    Changed(Status, ObjectChange),
    // The changes of the two directories, each where its handle is live.
    Renamed(Status, Option<ObjectChange>, Option<ObjectChange>),
    // The file, and the change of the directory, each where its handle is live.
    Linked(Status, Option<ObjectNumber>, Option<ObjectChange>),
    GotAttributes(ObjectNumber),
    // The object, whose handle is given too, and its directory.
    Found(ObjectNumber, ObjectNumber),
    Granted(ObjectNumber, u32),
    // The file, whether its end was reached, and which of its bytes are sent: from an offset on, so many.
    GotBytes(ObjectNumber, bool, usize, usize),
    // The bytes written, and the caller's verifier.
    Wrote(ObjectChange, u32, u64),
    // The object, whose handle is given too, and the change of its directory.
    Created(ObjectNumber, ObjectChange),
    // The directory, whether nothing remains, and which of its entries are sent: those above a cookie, so many.
    Listed(ObjectNumber, bool, u64, usize),
    // Total bytes, free bytes, objects, available objects.
    GotRoom(ObjectNumber, u32, u32, u32, u32),
    GotLimits(ObjectNumber),
    GotNaming(ObjectNumber),
    Committed(ObjectChange, u64),
}
