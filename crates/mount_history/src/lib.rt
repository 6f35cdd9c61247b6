// What any list of calls of MOUNT leaves in the mount table, and what a mounted handle names: statements in specs/, their proofs in proofs/. There is no
// code here.
#![tactic(auto)]
