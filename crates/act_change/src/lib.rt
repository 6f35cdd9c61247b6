// The calls that set, write and make: SETATTR, WRITE, CREATE and MKDIR.
#![tactic(auto)]

pub mod setting; // the checks of SETATTR and WRITE
pub mod attributes; // SETATTR
pub mod data; // WRITE
pub mod names; // CREATE and MKDIR
