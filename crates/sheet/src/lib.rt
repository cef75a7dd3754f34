// A whole sheet: the text of its three lines comes in, the text of its answer goes out. Nothing here asks anything of its caller.
#![tactic(auto)]

ghost use Rattle.rules.specs.Start.{run as run_by};
ghost use Rattle.lister.specs.Listing.{Listed};
ghost use Rattle.sheet.specs.Answering.{fresh_tables, ended_text, answer_to};

// The run of a program from fresh tables, and the listing of what it leaves.
fn run_fresh(program: &[i32], proposals: &[i32], budget: i32, out: &mut [u8]) -> usize
    ensures { Listed (ended_text (run_by program.now proposals.now budget fresh_tables)) out.old out.new result }
{
    let mut environment = [0i32; tables::ENVIRONMENT_WORDS];
    let mut heap = [0i32; tables::HEAP_WORDS];
    let mut constraints = [0i32; tables::CONSTRAINTS_WORDS];
    let mut answer = [0i32; 4];
    run::whole::run(
        program,
        &mut environment,
        &mut heap,
        &mut constraints,
        proposals,
        budget,
        &mut answer,
    );
    lister::listing::write_listing(
        out,
        words::number_at(&answer, 0),
        words::number_at(&answer, 1),
        words::number_at(&answer, 2),
        words::number_at(&answer, 3),
        &environment,
        &heap,
        &constraints,
    )
}

// The whole output for a text: how many bytes were written. lister::LISTING_BYTES are enough for every output.
pub fn answer_text(text: &[u8], out: &mut [u8]) -> usize
    ensures { Listed (answer_to text.now) out.old out.new result }
{
    let mut program = [0i32; lister::MOST_NUMBERS];
    let mut proposals = [0i32; lister::MOST_NUMBERS];
    match lister::reading::read_input(text, &mut program, &mut proposals) {
        Ok(input) => run_fresh(
            words::part_to(&program, input.program),
            words::part_to(&proposals, input.proposals),
            input.budget,
            out,
        ),
        Err(line) => lister::listing::write_unfit(out, line),
    }
}
