// XDR (RFC 4506): the fields of a call, and the parts of a reply.
#![tactic(auto)]

pub mod read; // one field at a cursor
pub mod write; // words and bytes at a place of the reply space
