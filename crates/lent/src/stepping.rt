// A statement that holds no block, with the tally by value.
ghost use Rattle.std.specs.Prelude.{◌≡◌};
ghost use Rattle.tables.specs.Lending.{StillLent};
ghost use Rattle.phases.specs.Told.{state_in};
ghost use Rattle.lent.specs.Tallied.{carries, Begins, Goes};
ghost use Rattle.lent.specs.Lending.{holds_blocks, one_statement, Steps};

use super::counting::{ended, pay, tallied};
use crate::Tally;
use program::Verb;
use statements::simple::simple_at;
use tables::Tables;

// Whether statements of a verb hold blocks: if and while.
#[tactic(auto, unfolding(crate::specs::Lending::holds_blocks))]
pub fn holds_blocks(verb: Verb) -> bool
    ensures { result ≡ holds_blocks verb }
{
    match verb {
        Verb::If => true,
        Verb::While => true,
        _ => false,
    }
}

// The statement at p, with a tally that a run carries. One that holds blocks is not begun (2), one whose step would pass the budget neither (5).
fn begun(
    program: &[i32],
    t: &mut Tables<'_>,
    proposals: &[i32],
    budget: usize,
    p: &[i32],
    tally: Tally,
) -> Tally
    requires { Begins proposals.now tally }
    ensures goes { Goes proposals.now tally (state_in t.new) result (one_statement program.now budget p.now (carries proposals.now (state_in t.old) tally)) }
    ensures lent { StillLent t.old t.new }
{
    let place = words::less(program.len(), p.len());
    let verb = Verb::from(words::number_at(p, 0));
    if holds_blocks(verb) {
        return ended(tally, 2, place);
    }
    let u = pay(tally, budget, place);
    if u.outcome != 0 {
        return u;
    }
    let unread = words::part_last(proposals, u.unread);
    tallied(u, program.len(), simple_at(program, t, unread, p, verb))
}

// The statement at p. A tally that has ended, or that no run carries, stays as it is.
pub(crate) fn stepped(
    program: &[i32],
    t: &mut Tables<'_>,
    proposals: &[i32],
    budget: usize,
    p: &[i32],
    tally: Tally,
) -> Tally
    ensures steps { Steps proposals.now (state_in t.old) (state_in t.new) tally result (one_statement program.now budget p.now (carries proposals.now (state_in t.old) tally)) }
    ensures lent { StillLent t.old t.new }
{
    if tally.outcome != 0 {
        return tally;
    }
    if tally.place != 0 {
        return tally;
    }
    if tally.steps < tally.accepted {
        return tally;
    }
    if proposals.len() < tally.unread {
        return tally;
    }
    begun(program, t, proposals, budget, p, tally)
}
