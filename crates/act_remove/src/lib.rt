// REMOVE, RMDIR and RENAME.
#![tactic(auto)]

pub mod act; // what each procedure does
