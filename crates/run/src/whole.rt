// The run: the start, and then the program's block.
ghost use Rattle.std.specs.Prelude.{◌≡◌};
ghost use Rattle.words.specs.Words.{last_of};
ghost use Rattle.words.specs.Answer.{got};
ghost use Rattle.rules.specs.Start.{starts as starts_by};
ghost use Rattle.rules.specs.Start.{run as run_by};
ghost use Rattle.tables.specs.Lending.{StillLent};
ghost use Rattle.phases.specs.Told.{tables, state_in};
ghost use Rattle.run.specs.Told.{Meets};

use super::start::starts;
use tables::Tables;

// The block of a program that may begin; how many words of the proposals are unread.
fn run_begun(
    program: &[i32],
    t: &mut Tables<'_>,
    proposals: &[i32],
    budget: i32,
    answer: &mut [i32; 4],
) -> usize
    requires { starts_by program.now budget (state_in t.old) ≡ got tt }
    ensures meets { Meets (state_in t.new) answer.new (last_of result proposals.now) (run_by program.now proposals.now budget (state_in t.old)) }
    ensures lent { StillLent t.old t.new }
{
    let most = words::number(budget);
    let tally = block::run_all(program, t, proposals, most);
    if tally.outcome == 0 {
        words::answer_with(answer, 0, program.len(), tally.steps, tally.accepted);
        return tally.unread;
    }
    words::answer_with(
        answer,
        tally.outcome,
        tally.place,
        tally.steps,
        tally.accepted,
    );
    tally.unread
}

// A run from the start: the answer is outcome, place, steps and accepted proposals; the unread words of the proposals are handed back.
pub fn run<'a>(
    program: &[i32],
    environment: &mut [i32],
    heap: &mut [i32],
    constraints: &mut [i32],
    proposals: &'a [i32],
    budget: i32,
    answer: &mut [i32; 4],
) -> &'a [i32]
    ensures { Meets (tables environment.new heap.new constraints.new) answer.new result.now (run_by program.now proposals.now budget (tables environment.old heap.old constraints.old)) }
{
    let mut t = Tables {
        environment,
        heap,
        constraints,
    };
    let seen = t.view();
    match starts(program, &seen, budget) {
        Err(early) => {
            words::answer_with(answer, early.number, early.place, 0, 0);
            proposals
        }
        Ok(_) => {
            let unread = run_begun(program, &mut t, proposals, budget, answer);
            words::part_last(proposals, unread)
        }
    }
}
