// The store check of an object record.
#![tactic(auto)]

pub mod object; // one object record
