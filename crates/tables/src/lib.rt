// The lent tables: the environment and the heap with their cells, and the constraints with the kept positions.
// Nothing here asks anything of its caller; each function is defined for tables of any length and content.
#![tactic(auto)]

pub mod cells; // cells.rt: values, and the cell at a location
pub mod records; // records.rt: counts, labels, cells, a record more and a record less
pub mod kept; // kept.rt: kept positions of both sorts
pub mod lending; // lending.rt: the three tables as they are lent
pub mod moved; // moved.rt: the cells lent to be changed, beside what is kept

pub const VARIABLES: usize = 64;

pub const ENVIRONMENT_WORDS: usize = 128;

pub const HEAP_WORDS: usize = 1601;

pub const RECORDS: usize = 64;

pub const RECORD_WORDS: usize = 25;

pub const FIELDS: usize = 8;

pub const LABELS: usize = 32;

pub const LOCATIONS: usize = 576;

pub const CONSTRAINTS_WORDS: usize = 98;

pub const VALUE_POSITIONS: usize = 64;

pub const IDENTITY_POSITIONS: usize = 32;

// A value in the program's own hands.
#[derive(Clone, Copy, Debug, PartialEq, Eq)]
pub enum Value {
    Nil,
    Bool(bool),
    Int(i32),
    Ref(usize),
}

// The kinds of values.
#[derive(Clone, Copy, Debug, PartialEq, Eq)]
pub enum Kind {
    Nil,
    Bool,
    Int,
    Ref,
}

// A cell as it is lent: two words.
#[derive(Clone, Copy, Debug, PartialEq, Eq)]
pub struct Cell {
    pub kind: i32,
    pub payload: i32,
}

// The cell of a place that holds nothing.
const ABSENT: Cell = Cell {
    kind: 0,
    payload: 0,
};

// The two sorts of kept positions: always C, and always L == L.
#[derive(Clone, Copy, Debug, PartialEq, Eq)]
pub enum Sort {
    Values,
    Identities,
}

// The three tables, lent to be read.
#[derive(Clone, Copy)]
pub struct View<'a> {
    pub environment: &'a [i32],
    pub heap: &'a [i32],
    pub constraints: &'a [i32],
}

// The three tables, lent to be changed.
#[derive(Drop)]
pub struct Tables<'a> {
    pub environment: &'a mut [i32],
    pub heap: &'a mut [i32],
    pub constraints: &'a mut [i32],
}

// The cells lent to be changed, beside what is kept, lent to be read: what a value or a proposal moves.
#[derive(Drop)]
pub struct Moving<'a> {
    pub environment: &'a mut [i32],
    pub heap: &'a mut [i32],
    pub constraints: &'a [i32],
}
