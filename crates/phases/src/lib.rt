// The identity phase, and then the value phase. The tables are changed in place, and a refusal leaves every word as it was.
#![tactic(auto)]

pub mod classes; // classes.rt: the ties of kept identities, and the class of a target
pub mod giving; // giving.rt: a target's class takes a value, and then one proposal is read

// A mark of one bit for each location.
pub const MARKS_WORDS: usize = tables::LOCATIONS / 64;

// Two words for each cell of a class: the target, and one cell more for each tie.
pub const CLASS_WORDS: usize = 2 + 2 * tables::IDENTITY_POSITIONS;

// What a record more may change: its own words, and the count.
pub const ROOM_WORDS: usize = 1 + tables::RECORD_WORDS;

// The marks of a class of cells, a bit for each location.
pub type Class = [u64; MARKS_WORDS];

// The two cells that an identity names.
#[derive(Clone, Copy)]
pub struct Ends {
    pub one: usize,
    pub two: usize,
}

// A tie that is walked: whether a mark is new, and whether it stays apart, with no end marked.
#[derive(Clone, Copy)]
pub struct Grown {
    pub new: bool,
    pub apart: bool,
}

// All ties are walked: whether one names the target, and whether another pass is due.
#[derive(Clone, Copy)]
pub struct Passed {
    pub names: bool,
    pub again: bool,
}

// An accepted statement: how many words of the proposals are unread, and how many proposals it took.
#[derive(Clone, Copy)]
pub struct Done {
    pub unread: usize,
    pub accepted: usize,
}
