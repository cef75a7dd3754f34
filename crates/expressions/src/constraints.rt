// The parts of a constraint, of the kept value constraints, and of those that count for a statement.
ghost use Rattle.std.specs.Prelude.{◌≡◌};
ghost use Rattle.tables.specs.Lending.{seen};
ghost use Rattle.tables.specs.declared.Sort.TheVariants.{Values};
ghost use Rattle.rules.specs.State.{positions};
ghost use Rattle.rules.specs.Constraints.{part_at, parts_at, constraint_at, kept_parts, own_parts, counted};
ghost use Rattle.expressions.specs.Judging.{rated_of, weighed_of, parts_only, own_in};

use super::operators::truth;
use super::values::evaluate_at;
use crate::{Rated, Weighed};
use program::Refusal;
use tables::{Sort, View};

// The part of C at p: priority and e. Where e is no boolean it is 8 at the part's first word; one that leaves 32 bits is unsatisfied.
pub fn part_at(t: &View<'_>, p: &[i32]) -> Result<Rated, Refusal>
    ensures { result ≡ rated_of (part_at (seen t.now) p.now) }
{
    let priority = words::number_at(p, 0);
    if priority == 0 {
        return Err(Refusal::at(2, p));
    }
    if program::REQUIRED < priority {
        return Err(Refusal::at(2, p));
    }
    let q = words::part_from(p, 1);
    let j = evaluate_at(t, q, program::EXPRESSION_DEPTH, true)?;
    Ok(Rated {
        priority,
        satisfied: truth(j.value, p.len())?,
        left: j.left,
    })
}

// m parts in a row, at p.
fn parts_at(t: &View<'_>, p: &[i32], m: usize) -> Result<Weighed, Refusal>
    ensures { result ≡ weighed_of (parts_only (parts_at m (seen t.now) p.now)) }
{
    let mut left = p.len();
    let mut all = true;
    let mut required = true;
    for i in 0..m {
        let part = part_at(t, words::part_last(p, left))?;
        left = part.left;
        all = all & part.satisfied;
        required = required & ((part.priority != program::REQUIRED) | part.satisfied);
    }
    Ok(Weighed { all, required })
}

// The C at p: m, m parts.
pub fn constraint_at(t: &View<'_>, p: &[i32]) -> Result<Weighed, Refusal>
    ensures { result ≡ weighed_of (constraint_at (seen t.now) p.now) }
{
    let m = words::number_at(p, 0);
    if m == 0 {
        return Err(Refusal::at(2, p));
    }
    if program::MOST_PARTS < m {
        return Err(Refusal::at(2, p));
    }
    parts_at(t, words::part_from(p, 1), m)
}

// All kept value constraints of the program, in kept order; 15 with the word at fault where one does not read.
pub fn kept_at(program: &[i32], t: &View<'_>) -> Result<Weighed, Refusal>
    ensures { result ≡ weighed_of (kept_parts program.now (seen t.now) (positions t.now.constraints.now Values)) }
{
    let n = tables::kept::kept_count(t.constraints, Sort::Values);
    let mut all = true;
    let mut required = true;
    for i in 0..n {
        let statement = words::part_from(
            program,
            tables::kept::position_at(t.constraints, Sort::Values, i),
        );
        match constraint_at(t, words::part_from(statement, 1)) {
            Err(fault) => {
                return Err(Refusal {
                    number: 15,
                    word: fault.word,
                });
            }
            Ok(each) => {
                all = all & each.all;
                required = required & each.required;
            }
        }
    }
    Ok(Weighed { all, required })
}

// A statement's own C, if it has one.
fn own_at(t: &View<'_>, own: Option<&[i32]>) -> Result<Weighed, Refusal>
    ensures { result ≡ weighed_of (own_parts (seen t.now) (own_in own.entry)) }
{
    match own {
        Some(p) => constraint_at(t, p),
        None => Ok(Weighed {
            all: true,
            required: true,
        }),
    }
}

// The parts that count for a statement: its own C, if it has one, and then all kept value constraints.
pub fn counted_at(program: &[i32], t: &View<'_>, own: Option<&[i32]>) -> Result<Weighed, Refusal>
    ensures { result ≡ weighed_of (counted program.now t.now.constraints.now (own_in own.entry) (seen t.now)) }
{
    let ours = own_at(t, own)?;
    let kept = kept_at(program, t)?;
    Ok(Weighed {
        all: kept.all & ours.all,
        required: kept.required & ours.required,
    })
}
