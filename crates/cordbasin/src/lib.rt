// The calls for a host in C or Rust.
#![tactic(auto)]

pub mod lists; // lists.rt: the call for a list of entries
pub mod asking; // asking.rt: the call for two solvers on one statement

ghost use Rattle.std.specs.Prelude.{◌≡◌};
ghost use Rattle.rules.specs.Start.{run as run_by};
ghost use Rattle.phases.specs.Told.{tables};
ghost use Rattle.text.specs.Whole.{answered, read as read_by};
ghost use Rattle.printing.specs.Whole.{answered as answered_text, write as write_by};
ghost use Rattle.cordbasin.specs.Told.{Answers};

// A run: the four words of the answer are outcome, place, steps and accepted proposals; it returns how many words of the proposals are unread.
#[unsafe(no_mangle)]
pub extern "C" fn cordbasin_run(
    program: &[i32],
    environment: &mut [i32],
    heap: &mut [i32],
    constraints: &mut [i32],
    proposals: &[i32],
    budget: i32,
    answer: &mut [i32; 4],
) -> usize
    ensures { Answers (tables environment.new heap.new constraints.new) answer.new result (run_by program.now proposals.now budget (tables environment.old heap.old constraints.old)) }
{
    let unread = run::whole::run(
        program,
        environment,
        heap,
        constraints,
        proposals,
        budget,
        answer,
    );
    unread.len()
}

// Reads a text: the four words of the answer are outcome, place, and how many variables and labels have names; it returns how many words the program has.
#[unsafe(no_mangle)]
pub extern "C" fn cordbasin_read(
    text: &[u8],
    program: &mut [i32],
    origins: &mut [i32],
    names: &mut [i32],
    answer: &mut [i32; 4],
) -> usize
    ensures { answered program.new origins.new names.new answer.new result ≡ read_by text.now program.old origins.old names.old }
{
    text::whole::read(text, program, origins, names, answer)
}

// Writes a program as a text: the four words of the answer are outcome, place, and how many variables and labels are used; it returns how many bytes the text has.
#[unsafe(no_mangle)]
pub extern "C" fn cordbasin_write(
    program: &[i32],
    source: &[u8],
    names: &[i32],
    text: &mut [u8],
    answer: &mut [i32; 4],
) -> usize
    ensures { answered_text text.new answer.new result ≡ write_by program.now source.now names.now text.old }
{
    printing::whole::write(program, source, names, text, answer)
}
