// What becomes of the tally: a step is paid, a run is ended, a statement is counted.
ghost use Rattle.std.specs.Prelude.{◌≡◌, ◌+◌, ◌≤◌};
ghost use Rattle.lent.specs.Tallied.{ended_at, paid_by, accepted_in, done_by};

use crate::Tally;
use phases::Done;
use program::Refusal;

// The tally of a run that a statement ends; its counts stay.
pub fn ended(last: Tally, outcome: usize, place: usize) -> Tally
    ensures { result ≡ ended_at outcome place last }
{
    Tally {
        steps: last.steps,
        accepted: last.accepted,
        unread: last.unread,
        outcome: outcome,
        place: place,
    }
}

// A step more, or 5 where it would pass the budget.
pub fn pay(t: Tally, budget: usize, place: usize) -> Tally
    ensures { result ≡ paid_by budget place t }
{
    if budget <= t.steps {
        return ended(t, 5, place);
    }
    Tally {
        steps: t.steps + 1,
        accepted: t.accepted,
        unread: t.unread,
        outcome: t.outcome,
        place: t.place,
    }
}

// The tally after a statement whose step is paid; `long` is how many words the program has. A turned-down proposal is unread.
pub(crate) fn tallied(t: Tally, long: usize, done: Result<Done, Refusal>) -> Tally
    requires { t.accepted + accepted_in done ≤ t.steps }
    ensures { result ≡ done_by long t done }
{
    match done {
        Ok(done) => Tally {
            steps: t.steps,
            accepted: t.accepted + done.accepted,
            unread: done.unread,
            outcome: 0,
            place: 0,
        },
        Err(fault) => ended(t, fault.number, words::less(long, fault.word)),
    }
}
