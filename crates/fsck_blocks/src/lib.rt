// The store check's pass over the object records, and that no block is used twice.
#![tactic(auto)]

pub mod objects; // all object records
