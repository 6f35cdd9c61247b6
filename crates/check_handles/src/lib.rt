// Handles and names in calls: the object that a handle names, what a name may be, and what failures show.
#![tactic(auto)]

pub mod handle; // the object that a handle names
pub mod text; // what a name in a call may be
pub mod failure; // what failures show of a handle's object
