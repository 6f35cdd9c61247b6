// The bytes of each reply of MOUNT.
#![tactic(auto)]

pub mod text; // bytes, decimals and strings
pub mod result; // a whole reply
