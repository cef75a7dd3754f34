// The papers' notation.
#![tactic(auto)]

mod naming; // naming.rt: the table of names, and the number of a name
mod reading; // reading.rt: the token to be judged, taking it, names
mod writing; // writing.rt: words and the places that they come from
mod paths; // paths.rt: an L
pub mod levels; // levels.rt: how tightly an operator binds
mod expressions; // expressions.rt: operands, brackets and operators
mod constraints; // constraints.rt: parts, and what follows always and once
mod assignments; // assignments.rt: assignments, new and its fields
mod blocks; // blocks.rt: statements and blocks
pub mod whole; // whole.rt: a text

// Variable v's place and length stand at 2v and 2v + 1 of the table of names, label l's at 128 + 2l and 129 + 2l.
pub const NAME_WORDS: usize = 192;

pub const FIRST_LABEL: usize = 128;

// The word of a path, and a part's where no priority is written.
pub const PATH: i32 = 24;

pub const REQUIRED: i32 = 3;

// How many words the rows hold that are written to: those that may be certain, and more than can be owed.
pub const ROW: usize = 4100;

// How far a text is read, and what was read last.
#[derive(Clone, Copy, Debug, PartialEq, Eq)]
pub(crate) struct Carried {
    // Of a refusal; the number is 0 while it goes on.
    number: usize,
    place: usize,
    // The byte behind the last token taken, and its code.
    at: usize,
    last: usize,
    // The words that are certain, those that the next token makes so, and whether it passes a limit.
    certain: usize,
    owed: usize,
    passed: bool,
    // How many variables and labels have names, and the number of the name or how many brackets were read last.
    variables: usize,
    labels: usize,
    named: usize,
    // The words written, and the depth of the expression read last.
    written: usize,
    depth: usize,
    // The token to be judged: its code, its first byte and the byte behind its last.
    code: usize,
    start: usize,
    end: usize,
}

// The table of names, and the two rows that are written to.
#[derive(Drop)]
pub(crate) struct Lent {
    names: [usize; NAME_WORDS],
    words: [i32; ROW],
    origins: [usize; ROW],
}

// A reader, and what it writes to.
#[derive(Drop)]
pub(crate) struct Reader {
    lent: Lent,
    carried: Carried,
}
