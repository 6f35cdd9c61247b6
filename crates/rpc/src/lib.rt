// RPC messages (RFC 5531 section 9): the header of a call, the outcomes before a procedure runs, and the heads of replies.
#![tactic(auto)]

pub mod header; // the header of a call
pub mod outcome; // whether a procedure runs, and the replies of calls that do not run
pub mod admit; // whether the procedure of a call that passed its tests runs, and the reply where it does not
