// The call: the start, the statement with the first slice, and then with the second.
ghost use Rattle.std.specs.Prelude.{◌≡◌, [], ◌∷◌};
ghost use Rattle.words.specs.Words.{number_of, number_at, word_of};
ghost use Rattle.rules.specs.Solvers.{tries, ask as ask_by};
ghost use Rattle.rules.specs.Solvers.{alone as alone_by};
ghost use Rattle.rules.specs.Claims.Solvers.{slice_of};
ghost use Rattle.tables.specs.Lending.{StillLent};
ghost use Rattle.phases.specs.Told.{tables, state_seen, state_in};
ghost use Rattle.solvers.specs.Told.{given_by, opening, Hands};

use super::slices::{alone, is_named, turns_down};
use crate::{Early, Solver};
use program::Refusal;
use program::blocks::read_program;
use run::start::fits_at_start;
use tables::{Tables, View};

// The first slice is tried, and then the second where the first is turned down and the second has words.
fn attempt(
    program: &[i32],
    t: &mut Tables<'_>,
    word: i32,
    first: &[i32],
    second: &[i32],
) -> Result<Solver, Refusal>
    ensures given { given_by program.now word first.now second.now (state_in t.new) result ≡ tries program.now word first.now second.now (state_in t.old) (alone_by program.now (number_of word) (state_in t.old) first.now) }
    ensures lent { StillLent t.old t.new }
{
    let at = words::number(word);
    let Err(fault) = alone(program, t, first, at) else {
        return Ok(Solver::First);
    };
    if !turns_down(fault.number) {
        return Err(fault);
    }
    if second.len() == 0 {
        return Err(fault);
    }
    alone(program, t, second, at)?;
    Ok(Solver::Second)
}

// Outcomes 1 and 2, 2 for the word, and then 3 and 4.
fn opens(program: &[i32], t: &View<'_>, word: i32) -> Result<(), Early>
    ensures { result ≡ opening program.now word (state_seen t.now) }
{
    if !fit::are_sized(t.environment, t.heap, t.constraints) {
        return Err(Early {
            number: 1,
            place: 0,
        });
    }
    if let Err(place) = read_program(program) {
        return Err(Early {
            number: 2,
            place: words::word_of(place),
        });
    }
    if !is_named(program, word) {
        return Err(Early {
            number: 2,
            place: word,
        });
    }
    match fits_at_start(program, t) {
        Ok(_) => Ok(()),
        Err(early) => Err(Early {
            number: early.number,
            place: words::word_of(early.place),
        }),
    }
}

// The three words of an answer.
fn tell(answer: &mut [i32; 3], outcome: usize, place: i32, solver: usize)
    ensures { answer.new ≡ word_of outcome ∷ place ∷ word_of solver ∷ [] }
{
    let a = words::word_of(outcome);
    let c = words::word_of(solver);
    *answer = [a, place, c];
}

// One statement with two proposals: the answer is outcome, place and solver. The accepted words are handed back as the start
// of the slice that they came from, and none of them, as the empty start of the first, where neither slice is accepted.
pub fn ask<'a>(
    program: &[i32],
    environment: &mut [i32],
    heap: &mut [i32],
    constraints: &mut [i32],
    word: i32,
    first: &'a [i32],
    second: &'a [i32],
    answer: &mut [i32; 3],
) -> &'a [i32]
    ensures hands { Hands first.now second.now (tables environment.new heap.new constraints.new) answer.new result.now (ask_by program.now word first.now second.now (tables environment.old heap.old constraints.old)) }
    ensures place { result.ref_ptr ≡ slice_of (number_at answer.new 2) first.entry.ref_ptr second.entry.ref_ptr }
{
    let mut t = Tables {
        environment,
        heap,
        constraints,
    };
    let seen = t.view();
    if let Err(early) = opens(program, &seen, word) {
        tell(answer, early.number, early.place, 0);
        return &first[..0];
    }
    match attempt(program, &mut t, word, first, second) {
        Ok(Solver::First) => {
            tell(answer, 0, word, 1);
            first
        }
        Ok(Solver::Second) => {
            tell(answer, 0, word, 2);
            second
        }
        Err(fault) => {
            let place = words::less(program.len(), fault.word);
            tell(answer, fault.number, words::word_of(place), 0);
            &first[..0]
        }
    }
}
