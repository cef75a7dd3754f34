// Two solvers on one statement, over a state and program as a run has them.
#![tactic(auto)]

mod slices; // slices.rt: the statement with one slice
pub mod whole; // whole.rt: the start, the statement with both, and the call

// Whose proposal is accepted.
#[derive(Clone, Copy)]
pub enum Solver {
    First,
    Second,
}

// A refusal before the statement: its number and its place.
#[derive(Clone, Copy)]
pub struct Early {
    pub number: usize,
    pub place: i32,
}
