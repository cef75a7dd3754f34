// The tokens of a typed text, on bytes that the caller lends. Nothing here asks anything of its caller.
#![tactic(auto)]

pub mod bytes; // bytes.rt: classes, runs and parts of bytes
pub mod spelling; // spelling.rt: the codes of keywords and marks
pub mod scanning; // scanning.rt: the token that begins at a byte
pub mod numbers; // numbers.rt: what a number says

// A text that is longer is not read to its end.
pub const MOST_BYTES: usize = 65536;

// What a token is.
pub const END: usize = 0;

pub const NAME: usize = 1;

pub const NUMBER: usize = 2;

pub const NO_TOKEN: usize = 3;

pub const TOO_LONG: usize = 4;

pub const NEW: usize = 10;

pub const SKIP: usize = 11;

pub const ALWAYS: usize = 12;

pub const ONCE: usize = 13;

pub const WEAK: usize = 14;

pub const MEDIUM: usize = 15;

pub const REQUIRED: usize = 16;

pub const IF: usize = 17;

pub const THEN: usize = 18;

pub const ELSE: usize = 19;

pub const WHILE: usize = 20;

pub const DO: usize = 21;

pub const TRUE: usize = 22;

pub const FALSE: usize = 23;

pub const NIL: usize = 24;

pub const BECOMES: usize = 30;

pub const COLON: usize = 31;

pub const COMMA: usize = 32;

pub const DOT: usize = 33;

pub const SEMICOLON: usize = 34;

pub const OPEN_BRACE: usize = 35;

pub const CLOSE_BRACE: usize = 36;

pub const OPEN_BRACKET: usize = 37;

pub const CLOSE_BRACKET: usize = 38;

pub const IDENTICAL: usize = 39;

pub const BESIDE: usize = 40;

// An operator's code is this and its number in document 01, which is 1 to 11.
pub const OPERATORS: usize = 40;

pub const PLUS: usize = 41;

pub const MINUS: usize = 42;

pub const TIMES: usize = 43;

pub const BELOW: usize = 44;

pub const AT_MOST: usize = 45;

pub const EQUAL: usize = 46;

pub const UNEQUAL: usize = 47;

pub const AT_LEAST: usize = 48;

pub const ABOVE: usize = 49;

pub const AND: usize = 50;

pub const OR: usize = 51;

// The classes of bytes.
#[derive(Clone, Copy, Debug, PartialEq, Eq)]
pub enum Class {
    White,
    Lower,
    Named,
    Digit,
}

// What bytes begin with, and how many of them it takes.
#[derive(Clone, Copy, Debug, PartialEq, Eq)]
pub struct Piece {
    pub code: usize,
    pub length: usize,
}

// A token of a text: what it is, its first byte, and the byte behind its last.
#[derive(Clone, Copy, Debug, PartialEq, Eq)]
pub struct Token {
    pub code: usize,
    pub place: usize,
    pub end: usize,
}
