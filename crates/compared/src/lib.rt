// Hands proved functions to the comparison program of hosts/compare, as numbers; it has no other use.
#![tactic(auto)]

pub mod answers; // answers.rt: paths, expressions and constraints, in four words

ghost use Rattle.std.specs.Prelude.{◌≡◌, cond};
ghost use Rattle.program.specs.Told.{verdict_of};
ghost use Rattle.program.specs.Reading.{read_program};
ghost use Rattle.program.specs.Where.{statement_at, constraints_stand};
ghost use Rattle.compared.specs.Compared.{capped, verdict_number, spot_number};

// n, or `most` where n is greater.
fn cap(n: usize, most: usize) -> usize
    ensures { result ≡ capped n most }
{
    if n < most { n } else { most }
}

// 0 where the program reads, else 1 more than the place of its first unfit word.
#[unsafe(no_mangle)]
pub extern "C" fn compared_program(program: &[i32]) -> usize
    ensures { result ≡ verdict_number (verdict_of (read_program program.now)) }
{
    match program::blocks::read_program(program) {
        Ok(()) => 0,
        Err(place) => 1 + cap(place, program::MOST_WORDS),
    }
}

// 0 where no statement begins at this word, else 1 + 16 * verb + how deep its own blocks may nest.
#[unsafe(no_mangle)]
pub extern "C" fn compared_statement(program: &[i32], at: usize) -> usize
    ensures { result ≡ spot_number (statement_at program.now at) }
{
    match program::places::statement_at(program, at) {
        Some(spot) => 1 + 16 * cap(spot.verb, 15) + cap(spot.nest, 15),
        None => 0,
    }
}

// 1 where the constraints table is fit for the program, else 0.
#[unsafe(no_mangle)]
pub extern "C" fn compared_constraints(program: &[i32], constraints: &[i32]) -> usize
    ensures { result ≡ cond (constraints_stand program.now constraints.now) 1 0 }
{
    if program::places::constraints_stand(program, constraints) {
        1
    } else {
        0
    }
}
