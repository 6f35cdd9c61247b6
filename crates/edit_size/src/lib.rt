// The edit of a file's size. The other edits of a store are in `edit_attributes`, `edit_data`, `edit_names` and `edit_entries`; `fsck` formats one.
#![tactic(auto)]

pub mod size; // a file's size and its blocks
