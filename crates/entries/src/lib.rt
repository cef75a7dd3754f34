// A list of entries: assignments one by one, over a state and program as a run has them.
#![tactic(auto)]

pub mod reading; // reading.rt: an entry
pub mod whole; // whole.rt: the assignment that an entry is, and the list

// An assignment that is an entry: its own word, at most nine of an L, at most two of a literal.
pub const ASSIGNMENT_WORDS: usize = 12;
