// The text of the run lister, on bytes that the caller lends: the three lines that it reads and the lines that it writes.
// Nothing here asks anything of its caller.
#![tactic(auto)]

pub mod bytes; // bytes.rt: parts of a text, and bytes stored in a row
pub mod numerals; // numerals.rt: decimal numbers, read and written
pub mod reading; // reading.rt: the three lines of the input
pub mod listing; // listing.rt: the lines of the answer and the tables

pub const MOST_BYTES: usize = 65536;

pub const MOST_NUMBERS: usize = 4096;

// Enough bytes for every listing, whatever the tables hold.
pub const LISTING_BYTES: usize = 30930;

// What a fit input says: how many numbers the program and the proposals have, and the budget.
#[derive(Clone, Copy, Debug, PartialEq, Eq)]
pub struct Input {
    pub program: usize,
    pub proposals: usize,
    pub budget: i32,
}
