// The types that the code and the specification share.
#![tactic(auto)]

pub mod numbers; // statuses, procedures, limits and answers, and the numbers of records and blocks
pub mod layout; // where things stand in a store image, and how long they are
pub mod object; // times, objects, and attributes as they are shown
pub mod call; // the values that are read from a call
pub mod reading; // what reading one XDR field answers
pub mod mount; // MOUNT version 3: its numbers, its table, and the values that are read from its calls
