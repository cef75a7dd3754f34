// Which tables are fit.
// Nothing here asks anything of its caller; each function is defined for tables of any length and content.
#![tactic(auto)]

ghost use Rattle.std.specs.Prelude.{◌≡◌};
ghost use Rattle.words.specs.Words.{word_at};
ghost use Rattle.fit.specs.Fit.{sized, cell_fits, environment_fits, label_fits, field_fits, place_fits, record_fits, heap_fits, position_fits, sort_fits, constraints_fit};

use tables::{Cell, Sort};

// The lengths of the three tables.
#[tactic(auto, unfolding(crate::specs::Fit::sized))]
pub fn are_sized(environment: &[i32], heap: &[i32], constraints: &[i32]) -> bool
    ensures { result ≡ sized environment.now heap.now constraints.now }
{
    environment.len() == tables::ENVIRONMENT_WORDS
        && heap.len() == tables::HEAP_WORDS
        && constraints.len() == tables::CONSTRAINTS_WORDS
}

// A kind, and a payload that it allows, where the heap has this count word.
#[tactic(auto, unfolding(crate::specs::Fit::cell_fits))]
pub fn cell_fits(count: i32, c: Cell) -> bool
    ensures { result ≡ cell_fits count c }
{
    match words::number(c.kind) {
        0 | 1 => c.payload == 0,
        2 => (c.payload == 0) | (c.payload == 1),
        3 => true,
        4 => (0 <= c.payload) & (c.payload < count),
        _ => false,
    }
}

// The variables, where the heap is this one. Fresh ones are passed at once.
pub fn environment_fits(environment: &[i32], heap: &[i32]) -> bool
    ensures { result ≡ environment_fits (word_at heap.now 0) environment.now }
{
    if tables::cells::is_clear(environment) {
        return true;
    }
    let count = words::word_at(heap, 0);
    (0..tables::VARIABLES).all(|x| cell_fits(count, tables::cells::pair_at(environment, 2 * x)))
}

// The label of field place f of record r is in its range and none before it is the same.
#[tactic(auto, unfolding(crate::specs::Fit::label_fits))]
fn label_fits(heap: &[i32], r: usize, f: usize) -> bool
    ensures { result ≡ label_fits heap.now r f }
{
    let label = tables::records::label_at(heap, r, f);
    label < tables::LABELS && (0..f).all(|g| tables::records::label_at(heap, r, g) != label)
}

#[tactic(auto, unfolding(crate::specs::Fit::field_fits))]
fn field_fits(heap: &[i32], r: usize, f: usize) -> bool
    ensures { result ≡ field_fits heap.now r f }
{
    if !label_fits(heap, r, f) {
        return false;
    }
    let c = tables::records::field_at(heap, r, f);
    words::number(c.kind) != 0 && cell_fits(words::word_at(heap, 0), c)
}

// Field place f of record r, where the record has n fields.
#[tactic(auto, unfolding(crate::specs::Fit::place_fits))]
fn place_fits(heap: &[i32], r: usize, f: usize, n: usize) -> bool
    ensures { result ≡ place_fits heap.now r n f }
{
    if f < n {
        field_fits(heap, r, f)
    } else {
        tables::records::is_blank(heap, r, f)
    }
}

#[tactic(auto, unfolding(crate::specs::Fit::record_fits))]
fn record_fits(heap: &[i32], r: usize) -> bool
    ensures { result ≡ record_fits heap.now r }
{
    let n = tables::records::count_at(heap, r);
    n <= tables::FIELDS && (0..tables::FIELDS).all(|f| place_fits(heap, r, f, n))
}

// The records that the heap counts, then zeros.
#[tactic(auto, unfolding(crate::specs::Fit::heap_fits))]
pub fn heap_fits(heap: &[i32]) -> bool
    ensures { result ≡ heap_fits heap.now }
{
    let n = tables::records::record_count(heap);
    if tables::RECORDS < n {
        return false;
    }
    (0..n).all(|r| record_fits(heap, r)) && tables::records::are_blank_from(heap, n)
}

// The kept position number i of a sort is a number, and none before it is the same.
#[tactic(auto, unfolding(crate::specs::Fit::position_fits))]
fn position_fits(constraints: &[i32], s: Sort, i: usize) -> bool
    ensures { result ≡ position_fits constraints.now s i }
{
    let position = tables::kept::position_at(constraints, s, i);
    position < 2147483648
        && (0..i).all(|j| tables::kept::position_at(constraints, s, j) != position)
}

// The positions that the sort counts, then zeros.
#[tactic(auto, unfolding(crate::specs::Fit::sort_fits))]
fn sort_fits(constraints: &[i32], s: Sort) -> bool
    ensures { result ≡ sort_fits constraints.now s }
{
    let n = tables::kept::count_at(constraints, s);
    if tables::kept::most_kept(s) < n {
        return false;
    }
    (0..n).all(|i| position_fits(constraints, s, i))
        && tables::kept::are_blank_from(constraints, s, n)
}

// The constraints' counts, their unused words, and that no position occurs twice.
#[tactic(auto, unfolding(crate::specs::Fit::constraints_fit))]
pub fn constraints_fit(constraints: &[i32]) -> bool
    ensures { result ≡ constraints_fit constraints.now }
{
    sort_fits(constraints, Sort::Values) && sort_fits(constraints, Sort::Identities)
}
