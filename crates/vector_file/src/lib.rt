// The file of vectors: its rows, what is compared after a step, and what is printed.
#![tactic(auto)]

pub mod tags; // what the rows name
pub mod numbers; // the table of numbers
pub mod buffers; // the buffers, and the digest of one
pub mod report; // what is printed
pub mod rows; // reading the file row by row
pub mod judge; // what came back against what is wanted
