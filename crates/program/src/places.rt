// Where the statements are. A word is named by how many words are left from it on.
ghost use Rattle.std.specs.Prelude.{◌≡◌};
ghost use Rattle.program.specs.Where.{spot_block, spot_statement, statement_at, always_of, constraints_stand};

use super::blocks::{read_block, read_statement};
use super::marking::marks_stand;
use super::reading::{read_expression, words_left};
use crate::{BLOCK_DEPTH, EXPRESSION_DEPTH, MOST_STATEMENTS, MOST_WORDS, Spot};
use tables::Sort;

// The statement at p, whose blocks nest at most d deep, or one inside it.
#[tactic(auto, unfolding(crate::specs::Where::spot_statement, crate::specs::Where::spot_inside, crate::specs::Forms::verb_of))]
#[cycle(spot_block_spot_statement)]
fn spot_statement(p: &[i32], d: usize, left: usize) -> Option<Spot>
    ensures { result ≡ spot_statement (λ q. spot_block d left q) d left p.now }
{
    let verb = words::number_at(p, 0);
    if p.len() == left {
        return Some(Spot { verb, nest: d });
    }
    let q = words::part_from(p, 1);
    match verb {
        7 => {
            let body = words_left(read_expression(q, EXPRESSION_DEPTH, false));
            let b = words::part_last(q, body);
            match spot_block(b, d, left) {
                Some(spot) => Some(spot),
                None => {
                    let rest = words_left(read_block(b, d));
                    spot_block(words::part_last(b, rest), d, left)
                }
            }
        }
        8 => {
            let body = words_left(read_expression(q, EXPRESSION_DEPTH, false));
            spot_block(words::part_last(q, body), d, left)
        }
        _ => None,
    }
}

// The statement of the block at p from which on `left` words are left.
#[tactic(auto, unfolding(crate::specs::Where::spot_block))]
#[cycle(spot_block_spot_statement)]
fn spot_block(p: &[i32], d: usize, left: usize) -> Option<Spot>
    ensures { result ≡ spot_block d left p.now }
{
    if d == 0 {
        return None;
    }
    let n = words::number_at(p, 0);
    if MOST_STATEMENTS < n {
        return None;
    }
    let mut here = words::less(p.len(), 1);
    for _ in 0..n {
        let q = words::part_last(p, here);
        if let Some(spot) = spot_statement(q, d - 1, left) {
            return Some(spot);
        }
        here = words_left(read_statement(q, d - 1));
    }
    None
}

// The statement of a program that begins at this word: its verb's number, and how deep its own blocks may nest.
#[tactic(auto, unfolding(crate::specs::Where::statement_at))]
pub fn statement_at(program: &[i32], at: usize) -> Option<Spot>
    ensures { result ≡ statement_at program.now at }
{
    if program.len() <= at {
        return None;
    }
    spot_block(program, BLOCK_DEPTH, program.len() - at)
}

// The number of the always-statement of a sort.
pub fn always_of(s: Sort) -> usize
    ensures { result ≡ always_of s }
{
    match s {
        Sort::Values => 3,
        Sort::Identities => 5,
    }
}

// The constraints table is fit for this program. Where no position is kept, the program is not read.
pub fn constraints_stand(program: &[i32], constraints: &[i32]) -> bool
    ensures { result ≡ constraints_stand program.now constraints.now }
{
    if MOST_WORDS < program.len() {
        return false;
    }
    if !fit::constraints_fit(constraints) {
        return false;
    }
    let values = tables::kept::kept_count(constraints, Sort::Values);
    let identities = tables::kept::kept_count(constraints, Sort::Identities);
    if values + identities == 0 {
        return true;
    }
    marks_stand(program, constraints)
}
