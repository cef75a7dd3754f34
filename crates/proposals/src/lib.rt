// Proposals: payloads that are put and can be put back, and the one judge. The tables are changed in place, and a refusal
// leaves every word as it was.
#![tactic(auto)]

mod undoing; // undoing.rt: a payload put in a cell, and payloads put back
pub mod settling; // settling.rt: the one judge of a proposal

// The word of a saved payload for each location.
pub const SAVED_WORDS: usize = tables::LOCATIONS;

// So many pairs are few; a word for each saves their payloads.
pub const FEW_PAIRS: usize = 8;

// What a statement that reads a proposal asks: its own C, if it has one, the cell that may not be changed, if there is
// one, and whether there is room for its position.
#[derive(Clone, Copy)]
pub struct Asked<'a> {
    pub own: Option<&'a [i32]>,
    pub target: Option<usize>,
    pub room: bool,
}
