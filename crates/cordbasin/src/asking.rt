// The call for two solvers on one statement.
ghost use Rattle.rules.specs.Solvers.{ask as ask_by};
ghost use Rattle.phases.specs.Told.{tables};
ghost use Rattle.cordbasin.specs.Told.{Hands};

// The three words of the answer are outcome, place and solver; it returns how many words were accepted, which are the first of that solver's slice.
#[unsafe(no_mangle)]
pub extern "C" fn cordbasin_ask<'a>(
    program: &[i32],
    environment: &mut [i32],
    heap: &mut [i32],
    constraints: &mut [i32],
    word: i32,
    first: &'a [i32],
    second: &'a [i32],
    answer: &mut [i32; 3],
) -> usize
    ensures { Hands first.now second.now (tables environment.new heap.new constraints.new) answer.new result (ask_by program.now word first.now second.now (tables environment.old heap.old constraints.old)) }
{
    let accepted = solvers::whole::ask(
        program,
        environment,
        heap,
        constraints,
        word,
        first,
        second,
        answer,
    );
    accepted.len()
}
