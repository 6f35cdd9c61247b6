// The records of a store image: where they lie, and how they are read and written.
#![tactic(auto)]

pub mod counts; // the counts, the stamp, and where records and blocks start
pub mod object; // object records
pub mod name; // name records
pub mod block; // blocks, and the bytes of a file
