// The run's tally. One function does a statement that holds no block, and brings the tally, lent by `&mut`, up to date.
#![tactic(auto)]

pub mod counting; // counting.rt: a step is paid, a run is ended, a statement is counted
pub mod stepping; // stepping.rt: the statement with the tally by value

ghost use Rattle.tables.specs.Lending.{StillLent};
ghost use Rattle.phases.specs.Told.{state_in};
ghost use Rattle.lent.specs.Tallied.{carries};
ghost use Rattle.lent.specs.Lending.{one_statement, Steps};

use tables::Tables;

// Steps, accepted proposals, and how many words of the proposals are unread; the outcome and place where a statement ended the run, 0 while it goes on.
#[derive(Clone, Copy)]
pub struct Tally {
    pub steps: usize,
    pub accepted: usize,
    pub unread: usize,
    pub outcome: usize,
    pub place: usize,
}

// The statement at p, as a run does it, with the tally lent.
pub fn step(
    tally: &mut Tally,
    program: &[i32],
    t: &mut Tables<'_>,
    proposals: &[i32],
    budget: usize,
    p: &[i32],
)
    ensures steps { Steps proposals.now (state_in t.old) (state_in t.new) tally.old tally.new (one_statement program.now budget p.now (carries proposals.now (state_in t.old) tally.old)) }
    ensures lent { StillLent t.old t.new }
{
    *tally = stepping::stepped(program, t, proposals, budget, p, *tally);
}

// The same for a caller that carries the tally by value: it is laid in a local, which is lent.
pub fn stepped_on(
    program: &[i32],
    t: &mut Tables<'_>,
    proposals: &[i32],
    budget: usize,
    p: &[i32],
    tally: Tally,
) -> Tally
    ensures steps { Steps proposals.now (state_in t.old) (state_in t.new) tally result (one_statement program.now budget p.now (carries proposals.now (state_in t.old) tally)) }
    ensures lent { StillLent t.old t.new }
{
    let mut u = tally;
    step(&mut u, program, t, proposals, budget, p);
    u
}
