// Each statement that holds no block. The tables are changed in place, and a refusal leaves every word as it was.
#![tactic(auto)]

pub mod identities; // identities.rt: L == L, now
pub mod simple; // simple.rt: each statement that holds no block

// Three words for each field of a new record: label, kind and payload.
pub const FIELDS_WORDS: usize = 3 * tables::FIELDS;
