// The procedures that change nothing, but for READDIR: what each gives, as a value.
#![tactic(auto)]

pub mod object; // GETATTR and ACCESS
pub mod volume; // FSSTAT, FSINFO and PATHCONF
pub mod data; // READ and COMMIT
pub mod lookup; // LOOKUP
