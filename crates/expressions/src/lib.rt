// Paths, expressions and the parts of a constraint, evaluated over lent tables. A refusal is told by its number and the word at fault.
#![tactic(auto)]

pub mod paths; // paths.rt: the cell that an L names
pub mod operators; // operators.rt: kinds and results of the operators
pub mod values; // values.rt: what an expression comes to, outside C and inside it
pub mod testing; // testing.rt: the test of an if or while
pub mod constraints; // constraints.rt: the parts of a constraint, of the kept ones, and of those that count for a statement

// The cell that an L names, and the words left after it.
#[derive(Clone, Copy)]
pub struct Named {
    pub cell: usize,
    pub left: usize,
}

// A value, and the words left after its expression.
#[derive(Clone, Copy)]
pub struct Evaluated {
    pub value: tables::Value,
    pub left: usize,
}

// What an expression comes to, and the words left after it. Where its arithmetic leaves 32 bits inside C it is not exact, and a value of
// its kind stands in.
#[derive(Clone, Copy)]
pub struct Valued {
    pub value: tables::Value,
    pub exact: bool,
    pub left: usize,
}

// The operands of an expression: two under an operator; or, under none, the expression itself. `left` words are left from the first on,
// and an operand may nest so deep.
#[derive(Clone, Copy)]
pub struct Row {
    pub operator: Option<program::Operator>,
    pub left: usize,
    pub depth: usize,
}

// A part of C: its priority, whether it is satisfied, and the words left after it.
#[derive(Clone, Copy)]
pub struct Rated {
    pub priority: usize,
    pub satisfied: bool,
    pub left: usize,
}

// Parts of constraints: whether all are satisfied, and whether all required ones are.
#[derive(Clone, Copy)]
pub struct Weighed {
    pub all: bool,
    pub required: bool,
}
