// The store check, and format.
#![tactic(auto)]

pub mod shape; // the counts and the length
pub mod tree; // that parents lead to the root
pub mod check; // the whole check
pub mod format; // format
