// The list: the start, and then its entries one by one, up to the first that is refused.
ghost use Rattle.std.specs.Prelude.{◌≡◌, ◌∷◌, ◌≤◌, ◌<◌, pos, length, take};
ghost use Rattle.rules.specs.Start.{tally_from};
ghost use Rattle.rules.specs.Entries.{do_entries};
ghost use Rattle.rules.specs.Entries.{assigns as assigns_by};
ghost use Rattle.tables.specs.Lending.{StillLent};
ghost use Rattle.phases.specs.Told.{tables, state_in};
ghost use Rattle.lent.specs.Tallied.{carries, Begins, Goes};
ghost use Rattle.lent.specs.Lending.{one_statement};
ghost use Rattle.run.specs.Told.{Meets};
ghost use Rattle.entries.specs.Told.{given_of};

use super::reading::read_entry;
use crate::ASSIGNMENT_WORDS;
use lent::Tally;
use lent::counting::ended;
use run::start::starts;
use tables::Tables;

// The entry that the first n words of p are, as the assignment that it is: they are laid behind a 1, and the run's own function does it.
fn enter(
    program: &[i32],
    t: &mut Tables<'_>,
    proposals: &[i32],
    budget: usize,
    p: &[i32],
    n: usize,
    tally: Tally,
) -> Tally
    requires begins { Begins proposals.now tally }
    requires n_in_bounds { n ≤ length p.now }
    requires n_bound { n < 12 }
    ensures goes { Goes proposals.now tally (state_in t.new) result (one_statement program.now budget (pos 1 ∷ take n p.now) (carries proposals.now (state_in t.old) tally)) }
    ensures lent { StillLent t.old t.new }
{
    let mut s = [0i32; ASSIGNMENT_WORDS];
    words::store(&mut s, 0, 1);
    words::copy(&mut s, 1, p, n);
    lent::stepped_on(
        program,
        t,
        proposals,
        budget,
        words::part_to(&s, n + 1),
        tally,
    )
}

// The entries from the first on. The place is the index of the one that is refused, or how many there are; 23 comes before 5.
fn enter_all(
    program: &[i32],
    t: &mut Tables<'_>,
    entries: &[i32],
    proposals: &[i32],
    budget: usize,
) -> Tally
    ensures given { given_of proposals.now (state_in t.new) result ≡ do_entries (length entries.now) program.now budget 0 entries.now (tally_from (state_in t.old) proposals.now) }
    ensures lent { StillLent t.old t.new }
{
    let mut tally = Tally {
        steps: 0,
        accepted: 0,
        unread: proposals.len(),
        outcome: 0,
        place: 0,
    };
    let mut left = entries.len();
    let mut i: usize = 0;
    while 0 < left {
        let p = words::part_last(entries, left);
        let Ok(rest) = read_entry(p) else {
            return ended(tally, 23, i);
        };
        let u = enter(
            program,
            t,
            proposals,
            budget,
            p,
            words::less(left, rest),
            tally,
        );
        if u.outcome != 0 {
            return ended(u, u.outcome, i);
        }
        tally = u;
        left = rest;
        i += 1;
    }
    ended(tally, 0, i)
}

// A list over a state and program: the answer is outcome, place, steps and accepted proposals;
// the unread words of the proposals are handed back.
pub fn assign<'a>(
    program: &[i32],
    environment: &mut [i32],
    heap: &mut [i32],
    constraints: &mut [i32],
    entries: &[i32],
    proposals: &'a [i32],
    budget: i32,
    answer: &mut [i32; 4],
) -> &'a [i32]
    ensures { Meets (tables environment.new heap.new constraints.new) answer.new result.now (assigns_by program.now entries.now proposals.now budget (tables environment.old heap.old constraints.old)) }
{
    let mut t = Tables {
        environment,
        heap,
        constraints,
    };
    let seen = t.view();
    match starts(program, &seen, budget) {
        Err(early) => {
            words::answer_with(answer, early.number, early.place, 0, 0);
            proposals
        }
        Ok(_) => {
            let most = words::number(budget);
            let tally = enter_all(program, &mut t, entries, proposals, most);
            words::answer_with(
                answer,
                tally.outcome,
                tally.place,
                tally.steps,
                tally.accepted,
            );
            words::part_last(proposals, tally.unread)
        }
    }
}
