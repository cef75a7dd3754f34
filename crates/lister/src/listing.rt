// The lines of the answer and the tables.
ghost use Rattle.std.specs.Prelude.{◌≡◌, ◌<◌};
ghost use Rattle.tables.specs.Cells.{cells};
ghost use Rattle.lister.specs.Bytes.{Puts};
ghost use Rattle.lister.specs.Listing.{value_text, given_text, named_line, counted_line, variable_text, variables_text, field_text, fields_text, shown_records, records_text, positions_text, answer_text, tables_text, listing, unfit_text, Listed};

use super::bytes::{put, put_all};
use super::numerals::{put_natural, put_number};
use tables::{Sort, Value};

#[tactic(auto, unfolding(crate::specs::Listing::value_text))]
fn put_value(out: &mut [u8], at: usize, v: Value) -> usize
    ensures { Puts out.old at (value_text v) out.new result }
{
    match v {
        Value::Nil => put_all(out, at, b"nil"),
        Value::Bool(true) => put_all(out, at, b"bool 1"),
        Value::Bool(false) => put_all(out, at, b"bool 0"),
        Value::Int(n) => {
            let to = put_all(out, at, b"int ");
            put_number(out, to, n)
        }
        Value::Ref(r) => {
            let to = put_all(out, at, b"ref ");
            put_natural(out, to, r)
        }
    }
}

// What follows the name of a cell.
fn put_given(out: &mut [u8], at: usize, v: Value) -> usize
    ensures { Puts out.old at (given_text v) out.new result }
{
    let value = put(out, at, b'=');
    let end = put_value(out, value, v);
    put(out, end, b'\n')
}

// A name with its `=`, and a number.
pub fn put_named(out: &mut [u8], at: usize, name: &[u8], n: usize) -> usize
    ensures { Puts out.old at (named_line name.now n) out.new result }
{
    let number = put_all(out, at, name);
    let end = put_natural(out, number, n);
    put(out, end, b'\n')
}

// A letter with number i, and a number.
fn put_counted(out: &mut [u8], at: usize, letter: u8, i: usize, n: usize) -> usize
    ensures { Puts out.old at (counted_line letter i n) out.new result }
{
    let index = put(out, at, letter);
    let equals = put_natural(out, index, i);
    put_named(out, equals, b"=", n)
}

// Variable x, if it is present.
fn put_variable(out: &mut [u8], at: usize, environment: &[i32], heap: &[i32], x: usize) -> usize
    ensures { Puts out.old at (variable_text (cells environment.now heap.now) x) out.new result }
{
    let slot = tables::cells::slot_of(tables::cells::read_cell(environment, heap, x));
    match slot {
        None => at,
        Some(v) => {
            let number = put(out, at, b'v');
            let given = put_natural(out, number, x);
            put_given(out, given, v)
        }
    }
}

// The variables that are present, in order.
#[tactic(auto, using(crate::proofs::ListingLaws::each), unfolding(crate::specs::Listing::variables_text))]
fn put_variables(out: &mut [u8], at: usize, environment: &[i32], heap: &[i32]) -> usize
    ensures { Puts out.old at (variables_text (cells environment.now heap.now)) out.new result }
{
    let mut to = at;
    for x in 0..tables::VARIABLES {
        to = put_variable(out, to, environment, heap, x);
    }
    to
}

// Field place f of record r, by its label.
fn put_field(out: &mut [u8], at: usize, heap: &[i32], r: usize, f: usize) -> usize
    ensures { Puts out.old at (field_text heap.now r f) out.new result }
{
    let slot = tables::cells::slot_of(tables::records::field_at(heap, r, f));
    match slot {
        None => at,
        Some(v) => {
            let label = tables::records::label_at(heap, r, f);
            let number = put(out, at, b'r');
            let dot = put_natural(out, number, r);
            let name = put(out, dot, b'.');
            let given = put_natural(out, name, label);
            put_given(out, given, v)
        }
    }
}

// The fields of record r, in their own order.
#[tactic(auto, using(crate::proofs::ListingLaws::each), unfolding(crate::specs::Listing::fields_text))]
fn put_fields(out: &mut [u8], at: usize, heap: &[i32], r: usize) -> usize
    ensures { Puts out.old at (fields_text heap.now r) out.new result }
{
    let n = tables::records::field_count(heap, r);
    let mut to = at;
    for f in 0..n {
        to = put_field(out, to, heap, r, f);
    }
    to
}

// How many records there are; no more than there is room for, whatever the count word says.
#[tactic(auto, unfolding(crate::specs::Listing::shown_records))]
fn shown_records(heap: &[i32]) -> usize
    ensures { result ≡ shown_records heap.now }
{
    tables::records::record_count(heap).min(tables::RECORDS)
}

// Each record with its field count and its fields.
#[tactic(auto, using(crate::proofs::ListingLaws::each), unfolding(crate::specs::Listing::records_text))]
fn put_records(out: &mut [u8], at: usize, heap: &[i32]) -> usize
    ensures { Puts out.old at (records_text heap.now) out.new result }
{
    let n = shown_records(heap);
    let mut to = at;
    for r in 0..n {
        let fields = put_counted(out, to, b'r', r, tables::records::field_count(heap, r));
        to = put_fields(out, fields, heap, r);
    }
    to
}

// The kept positions of a sort, each after its letter and number.
#[tactic(auto, using(crate::proofs::ListingLaws::each), unfolding(crate::specs::Listing::positions_text))]
fn put_positions(out: &mut [u8], at: usize, constraints: &[i32], s: Sort, letter: u8) -> usize
    ensures { Puts out.old at (positions_text constraints.now s letter) out.new result }
{
    let n = tables::kept::kept_count(constraints, s);
    let mut to = at;
    for i in 0..n {
        let position = tables::kept::position_at(constraints, s, i);
        to = put_counted(out, to, letter, i, position);
    }
    to
}

// The four numbers of the answer.
fn put_answer(out: &mut [u8], outcome: usize, place: usize, steps: usize, proposals: usize) -> usize
    ensures { Puts out.old 0 (answer_text outcome place steps proposals) out.new result }
{
    let first = put_named(out, 0, b"outcome=", outcome);
    let second = put_named(out, first, b"place=", place);
    let third = put_named(out, second, b"steps=", steps);
    put_named(out, third, b"proposals=", proposals)
}

// The tables: variables, records, value positions, identities.
fn put_tables(
    out: &mut [u8],
    at: usize,
    environment: &[i32],
    heap: &[i32],
    constraints: &[i32],
) -> usize
    ensures { Puts out.old at (tables_text (cells environment.now heap.now) constraints.now) out.new result }
{
    let records = put_variables(out, at, environment, heap);
    let values = put_records(out, records, heap);
    let identities = put_positions(out, values, constraints, Sort::Values, b'c');
    put_positions(out, identities, constraints, Sort::Identities, b'i')
}

// The whole output of a run: how many bytes were written.
// What would pass the end of out is not written; LISTING_BYTES are enough for every listing.
pub fn write_listing(
    out: &mut [u8],
    outcome: usize,
    place: usize,
    steps: usize,
    proposals: usize,
    environment: &[i32],
    heap: &[i32],
    constraints: &[i32],
) -> usize
    ensures { Listed (listing outcome place steps proposals (cells environment.now heap.now) constraints.now) out.old out.new result }
{
    let at = put_answer(out, outcome, place, steps, proposals);
    put_tables(out, at, environment, heap, constraints)
}

// The whole output for an input whose first unfit line is this one.
pub fn write_unfit(out: &mut [u8], line: usize) -> usize
    ensures { Listed (unfit_text line) out.old out.new result }
{
    put_named(out, 0, b"input=", line)
}
