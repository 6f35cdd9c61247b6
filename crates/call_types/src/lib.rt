// The XDR types that the arguments of calls are made of (RFC 1813).
#![tactic(auto)]

pub mod types; // the types, each read at a cursor
