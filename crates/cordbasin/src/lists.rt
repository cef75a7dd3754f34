// The call for a list of entries.
ghost use Rattle.rules.specs.Entries.{assigns as assigns_by};
ghost use Rattle.phases.specs.Told.{tables};
ghost use Rattle.cordbasin.specs.Told.{Answers};

// The answer and what is returned are those of a run, but for the place, which from outcome 5 on is an entry's index and with 0 their number.
#[unsafe(no_mangle)]
pub extern "C" fn cordbasin_assign(
    program: &[i32],
    environment: &mut [i32],
    heap: &mut [i32],
    constraints: &mut [i32],
    entries: &[i32],
    proposals: &[i32],
    budget: i32,
    answer: &mut [i32; 4],
) -> usize
    ensures { Answers (tables environment.new heap.new constraints.new) answer.new result (assigns_by program.now entries.now proposals.now budget (tables environment.old heap.old constraints.old)) }
{
    let unread = entries::whole::assign(
        program,
        environment,
        heap,
        constraints,
        entries,
        proposals,
        budget,
        answer,
    );
    unread.len()
}
