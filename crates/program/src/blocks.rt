// Statements, blocks and the whole program.
ghost use Rattle.std.specs.Prelude.{◌≡◌, []};
ghost use Rattle.program.specs.Told.{told, verdict_of};
ghost use Rattle.program.specs.Reading.{read_fields, read_new, read_assign, read_statement, read_block, read_program};

use super::reading::{read_constraint, read_expression, read_path, read_paths, unfit};
use crate::{BLOCK_DEPTH, EXPRESSION_DEPTH, MOST_STATEMENTS, MOST_WORDS};

fn read_fields(p: &[i32], n: usize) -> Result<usize, usize>
    ensures { result ≡ told (read_fields n [] p.now) }
{
    let mut seen: [bool; 32] = [false; 32];
    let mut left = p.len();
    for _ in 0..n {
        let q = words::part_last(p, left);
        let label = words::number_at(q, 0);
        if tables::LABELS <= label {
            return unfit(q);
        }
        if seen[label] {
            return unfit(q);
        }
        seen[label] = true;
        left = read_expression(words::part_from(q, 1), EXPRESSION_DEPTH, false)?;
    }
    Ok(left)
}

// What follows the word of new: variable, n, n times label and e.
#[tactic(auto, unfolding(crate::specs::Reading::read_new, crate::specs::Reading::number))]
fn read_new(p: &[i32]) -> Result<usize, usize>
    ensures { result ≡ told (read_new p.now) }
{
    if tables::VARIABLES <= words::number_at(p, 0) {
        return unfit(p);
    }
    let q = words::part_from(p, 1);
    let n = words::number_at(q, 0);
    if tables::FIELDS < n {
        return unfit(q);
    }
    read_fields(words::part_from(q, 1), n)
}

// What follows the word of an assignment: L e.
#[tactic(auto, unfolding(crate::specs::Reading::read_assign))]
fn read_assign(p: &[i32]) -> Result<usize, usize>
    ensures { result ≡ told (read_assign p.now) }
{
    let left = read_path(p)?;
    read_expression(words::part_last(p, left), EXPRESSION_DEPTH, false)
}

// A statement whose blocks nest at most d deep.
#[tactic(auto, using(crate::proofs::ReadLaws::halted), unfolding(crate::specs::Reading::read_statement, crate::specs::Reading::read_with, crate::specs::Reading::read_verb, crate::specs::Forms::verb_of))]
#[cycle(read_block_read_statement)]
pub fn read_statement(p: &[i32], d: usize) -> Result<usize, usize>
    ensures { result ≡ told (read_statement d p.now) }
{
    let verb = words::number_at(p, 0);
    let q = words::part_from(p, 1);
    match verb {
        0 => Ok(q.len()),
        1 => read_assign(q),
        2 => read_new(q),
        3 => read_constraint(q),
        4 => read_constraint(q),
        5 => read_paths(q),
        6 => read_paths(q),
        7 => {
            let left = read_expression(q, EXPRESSION_DEPTH, false)?;
            let rest = read_block(words::part_last(q, left), d)?;
            read_block(words::part_last(q, rest), d)
        }
        8 => {
            let left = read_expression(q, EXPRESSION_DEPTH, false)?;
            read_block(words::part_last(q, left), d)
        }
        _ => unfit(p),
    }
}

// A block, nested at most d deep.
#[tactic(auto, unfolding(crate::specs::Reading::read_block, crate::specs::Reading::number))]
#[cycle(read_block_read_statement)]
pub fn read_block(p: &[i32], d: usize) -> Result<usize, usize>
    ensures { result ≡ told (read_block d p.now) }
{
    if d == 0 {
        return unfit(p);
    }
    let n = words::number_at(p, 0);
    if MOST_STATEMENTS < n {
        return unfit(p);
    }
    let mut left = words::less(p.len(), 1);
    for _ in 0..n {
        left = read_statement(words::part_last(p, left), d - 1)?;
    }
    Ok(left)
}

// Outcome 2's verdict on a program: it reads, or the place of its first unfit word.
pub fn read_program(p: &[i32]) -> Result<(), usize>
    ensures { result ≡ verdict_of (read_program p.now) }
{
    if MOST_WORDS < p.len() {
        return Err(MOST_WORDS);
    }
    match read_block(p, BLOCK_DEPTH) {
        Ok(0) => Ok(()),
        Ok(left) | Err(left) => Err(words::less(p.len(), left)),
    }
}
