// Values, and the cell at a location.
ghost use Rattle.std.specs.Prelude.{◌≡◌, ◌<◌, length};
ghost use Rattle.tables.specs.Values.{slot_of, cell_of};
ghost use Rattle.tables.specs.Cells.{cells, cell_at, put_cell, pair_at, put_pair, location_word, fresh, zeros};

use crate::{ABSENT, Cell, LOCATIONS, VARIABLES, Value};

// What a cell holds. A kind that no cell may have is read as absent.
#[tactic(auto, unfolding(crate::specs::Values::slot_of))]
pub fn slot_of(c: Cell) -> Option<Value>
    ensures { result ≡ slot_of c }
{
    match words::number(c.kind) {
        1 => Some(Value::Nil),
        2 => Some(Value::Bool(c.payload == 1)),
        3 => Some(Value::Int(c.payload)),
        4 => Some(Value::Ref(words::number(c.payload))),
        _ => None,
    }
}

// A value as a cell.
#[tactic(auto, unfolding(crate::specs::Values::cell_of))]
pub fn cell_of(v: Value) -> Cell
    ensures { result ≡ cell_of v }
{
    match v {
        Value::Nil => Cell {
            kind: 1,
            payload: 0,
        },
        Value::Bool(b) => Cell {
            kind: 2,
            payload: b as i32,
        },
        Value::Int(n) => Cell {
            kind: 3,
            payload: n,
        },
        Value::Ref(r) => Cell {
            kind: 4,
            payload: words::word_of(r),
        },
    }
}

// The heap's word where the cell of a location from 64 on begins.
fn location_word(l: usize) -> usize
    requires { l < 576 }
    ensures { result ≡ location_word l }
{
    let k = words::less(l, VARIABLES);
    25 * (k / 8) + 3 * (k % 8) + 3
}

// The cell whose two words begin at the word i; words past the end are 0.
pub fn pair_at(s: &[i32], i: usize) -> Cell
    ensures { result ≡ pair_at s.now i }
{
    if s.len() <= i {
        return ABSENT;
    }
    Cell {
        kind: words::word_at(s, i),
        payload: words::word_at(s, i + 1),
    }
}

fn put_pair(s: &mut [i32], i: usize, c: Cell)
    requires { i < 4096 }
    ensures { s.new ≡ put_pair s.old i c }
{
    words::store(s, i, c.kind);
    words::store(s, i + 1, c.payload);
}

// The cell at a location, absent where there is no such location.
#[tactic(auto, unfolding(crate::specs::Cells::cell_at))]
pub fn read_cell(environment: &[i32], heap: &[i32], l: usize) -> Cell
    ensures { result ≡ cell_at (cells environment.now heap.now) l }
{
    if l < VARIABLES {
        return pair_at(environment, 2 * l);
    }
    if l < LOCATIONS {
        return pair_at(heap, location_word(l));
    }
    ABSENT
}

// Another cell at a location; nothing is written where there is no such location.
#[tactic(auto, unfolding(crate::specs::Cells::put_cell))]
pub fn write_cell(environment: &mut [i32], heap: &mut [i32], l: usize, c: Cell)
    ensures { cells environment.new heap.new ≡ put_cell (cells environment.old heap.old) l c }
{
    if l < VARIABLES {
        put_pair(environment, 2 * l, c);
        return;
    }
    if l < LOCATIONS {
        put_pair(heap, location_word(l), c);
    }
}

// A table made fresh.
pub fn make_fresh(table: &mut [i32])
    ensures { table.new ≡ fresh (length table.old) }
{
    let n = table.len();
    words::clear(table, 0, n);
}

// n zeros from the word at on.
pub(crate) fn are_zeros(s: &[i32], at: usize, n: usize) -> bool
    requires at_bound { at < 4096 }
    requires n_bound { n < 4096 }
    ensures { result ≡ zeros s.now at n }
{
    (0..n).all(|i| words::word_at(s, at + i) == 0)
}

// Whether every word is 0. It has no early return, so that words are tested several at a time.
pub fn is_clear(s: &[i32]) -> bool
    ensures { result ≡ zeros s.now 0 (length s.now) }
{
    let mut clear = true;
    for w in s {
        clear = clear & (*w == 0);
    }
    clear
}
