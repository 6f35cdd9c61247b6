// The parts that the results of several procedures share.
#![tactic(auto)]

pub mod attributes; // attributes, changes and handles
pub mod failure; // a failure with no live handle
