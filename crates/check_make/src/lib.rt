// The checks of MKDIR, and those of CREATE that look for the name.
#![tactic(auto)]

pub mod checks; // the checks
