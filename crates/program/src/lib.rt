// The program's words: which programs read, where the first unfit word is, and where the statements are.
#![tactic(auto)]

pub mod forms; // forms.rt: the forms of statements and expressions, by their numbers
pub mod refusing; // refusing.rt: a refusal at a word
pub mod reading; // reading.rt: paths, expressions, constraints
pub mod blocks; // blocks.rt: statements, blocks, the whole program
pub mod places; // places.rt: where the statements are
mod marking; // marking.rt: their words, marked

pub const MOST_WORDS: usize = 4096;

pub const MOST_STATEMENTS: usize = 255;

pub const BLOCK_DEPTH: usize = 8;

pub const EXPRESSION_DEPTH: usize = 16;

pub const MOST_STEPS: usize = 7;

pub const MOST_PARTS: usize = 16;

pub const REQUIRED: usize = 3;

pub const OPERATORS: usize = 11;

// A refusal: its number in document 01, and the word at fault, told by how many words of the program are left from it on.
#[derive(Clone, Copy, Debug, PartialEq, Eq)]
pub struct Refusal {
    pub number: usize,
    pub word: usize,
}

// The verbs of statements: 0 skip, 1 assign, 2 new, 3 always C, 4 once C, 5 always L == L, 6 once L == L, 7 if, 8 while; any other number is none.
#[derive(Clone, Copy, Debug, PartialEq, Eq)]
pub enum Verb {
    Skip,
    Assign,
    New,
    Always,
    Once,
    AlwaysSame,
    OnceSame,
    If,
    While,
    Unknown,
}

// The forms of expressions: 20 nil, 21 false, 22 true, 23 integer, 24 L, 25 operator e e, 26 L == L; any other number is none.
#[derive(Clone, Copy, Debug, PartialEq, Eq)]
pub enum Form {
    Nil,
    False,
    True,
    Integer,
    Path,
    Operation,
    Identity,
    Unknown,
}

// The operators, in document 01's order: 1 +, 2 -, 3 ×, 4 <, 5 ≤, 6 =, 7 ≠, 8 ≥, 9 >, 10 and, 11 or; any other number is none.
#[derive(Clone, Copy, Debug, PartialEq, Eq)]
pub enum Operator {
    Plus,
    Minus,
    Times,
    Below,
    AtMost,
    Equal,
    Unequal,
    AtLeast,
    Above,
    And,
    Or,
    Unknown,
}

// A statement: its verb's number, and how deep its own blocks may nest.
#[derive(Clone, Copy, Debug, PartialEq, Eq)]
pub struct Spot {
    pub verb: usize,
    pub nest: usize,
}
