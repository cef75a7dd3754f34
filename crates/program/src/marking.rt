// Marks on the words at which statements begin, a bit for each word: the program is read once, however many positions are kept.
ghost use Rattle.std.specs.Prelude.{◌≡◌, ◌≤◌, length};
ghost use Rattle.program.specs.Where.{spot_block, spot_statement, is_always, positions_stand};
ghost use Rattle.program.specs.Marking.{Marked, MarksOf, both_stand};

use super::blocks::{read_block, read_statement};
use super::places::always_of;
use super::reading::{read_expression, words_left};
use crate::{BLOCK_DEPTH, EXPRESSION_DEPTH, MOST_STATEMENTS, MOST_WORDS};
use tables::Sort;
use words::bits::{is_marked, mark};

// A bit for each word of a program.
const MARKS_WORDS: usize = MOST_WORDS / 64;

// Marks the word of the statement at p, and of each inside it; `total` is the program's length.
#[cycle(mark_block_mark_statement)]
fn mark_statement(p: &[i32], d: usize, total: usize, marks: &mut [u64])
    requires { length p.now ≤ total }
    ensures { Marked total (λ left. spot_statement (λ q. spot_block d left q) d left p.now) marks.old marks.new }
{
    mark(marks, total - p.len());
    let q = words::part_from(p, 1);
    match words::number_at(p, 0) {
        7 => {
            let left = words_left(read_expression(q, EXPRESSION_DEPTH, false));
            let b = words::part_last(q, left);
            mark_block(b, d, total, marks);
            let rest = words_left(read_block(b, d));
            mark_block(words::part_last(b, rest), d, total, marks);
        }
        8 => {
            let left = words_left(read_expression(q, EXPRESSION_DEPTH, false));
            mark_block(words::part_last(q, left), d, total, marks);
        }
        _ => {}
    }
}

// Marks the words of the statements of the block at p, and of those inside them.
#[cycle(mark_block_mark_statement)]
fn mark_block(p: &[i32], d: usize, total: usize, marks: &mut [u64])
    requires { length p.now ≤ total }
    ensures { Marked total (λ left. spot_block d left p.now) marks.old marks.new }
{
    if d == 0 {
        return;
    }
    let n = words::number_at(p, 0);
    if MOST_STATEMENTS < n {
        return;
    }
    let mut here = words::less(p.len(), 1);
    for _ in 0..n {
        let q = words::part_last(p, here);
        mark_statement(q, d - 1, total, marks);
        here = words_left(read_statement(q, d - 1));
    }
}

// Where the marks are the program's.
fn is_always_marked(program: &[i32], s: Sort, at: usize, marks: &[u64]) -> bool
    requires { MarksOf program.now marks.now }
    ensures { result ≡ is_always program.now s at }
{
    if program.len() <= at {
        return false;
    }
    is_marked(marks, at) && words::number_at(program, at) == always_of(s)
}

// Every kept position of the sort is marked and has the sort's verb.
fn positions_marked(program: &[i32], constraints: &[i32], s: Sort, marks: &[u64]) -> bool
    requires { MarksOf program.now marks.now }
    ensures { result ≡ positions_stand program.now constraints.now s }
{
    let n = tables::kept::kept_count(constraints, s);
    (0..n).all(|i| {
        let at = tables::kept::position_at(constraints, s, i);
        is_always_marked(program, s, at, marks)
    })
}

// Every kept position of both sorts, by marks that are made once.
pub(crate) fn marks_stand(program: &[i32], constraints: &[i32]) -> bool
    requires { length program.now ≤ 4096 }
    ensures { result ≡ both_stand program.now constraints.now }
{
    let mut marks = [0u64; MARKS_WORDS];
    mark_block(program, BLOCK_DEPTH, program.len(), &mut marks);
    positions_marked(program, constraints, Sort::Values, &marks)
        && positions_marked(program, constraints, Sort::Identities, &marks)
}
