// The bytes of each reply.
#![tactic(auto)]

pub mod result; // a whole reply
