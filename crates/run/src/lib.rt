// The start, outcomes 1 to 4, and the whole run.
#![tactic(auto)]

pub mod start; // start.rt: outcomes 1 to 4
pub mod whole; // whole.rt: the run

// A refusal before the first statement: its number and its place.
#[derive(Clone, Copy)]
pub struct Early {
    pub number: usize,
    pub place: usize,
}
