// The store check's pass over the name records.
#![tactic(auto)]

pub mod text; // the bytes of a name
pub mod record; // one name record by itself
pub mod distinct; // that no two names in a directory are the same
pub mod named; // how often each object is named, and by which directory first
pub mod names; // all name records
