// A program as a text in the papers' notation.
#![tactic(auto)]

mod page; // page.rt: bytes that are written, or only counted
mod names; // names.rt: the names of variables and labels, and in which order they are used
mod paths; // paths.rt: an L, and L == L
mod expressions; // expressions.rt: operands, operators and brackets
mod rows; // rows.rt: the parts of a constraint and the fields of a record
mod blocks; // blocks.rt: statements and blocks
mod faults; // faults.rt: names that are unfit
pub mod whole; // whole.rt: a program's text

// Variables are the numbers 0 to 63, labels 64 to 95, as refusal 24 has them.
pub const NUMBERS: usize = 96;

pub const FIRST_LABEL: usize = 64;

// The greatest length that is told.
pub const FAR: usize = 2147483647;

// Bytes for a number in decimal with its sign, or a letter and a number.
pub const SHORT: usize = 24;
