// The cell that an L names.
ghost use Rattle.std.specs.Prelude.{◌≡◌};
ghost use Rattle.tables.specs.Lending.{seen};
ghost use Rattle.rules.specs.Paths.{value_at, way_at};
ghost use Rattle.expressions.specs.Told.{evaluated_of, named_of};
ghost use Rattle.expressions.specs.Following.{step_to, landed};

use crate::{Evaluated, Named};
use program::Refusal;
use tables::{Value, View};

// The cell that one label leads to from the cell l.
#[tactic(auto, using(crate::proofs::PathLaws::one_step))]
pub fn step(t: &View<'_>, l: usize, label: usize) -> Option<usize>
    ensures { result ≡ step_to (seen t.now) l label }
{
    match t.value(l) {
        Some(Value::Ref(r)) => tables::records::find_field(t.heap, r, label),
        _ => None,
    }
}

// The cell that n labels, at p, lead to from the cell l.
fn land(t: &View<'_>, n: usize, l: usize, p: &[i32]) -> Option<usize>
    ensures { result ≡ landed (seen t.now) n l p.now }
{
    let mut at = l;
    for i in 0..n {
        at = step(t, at, words::number_at(p, i))?;
    }
    Some(at)
}

// The cell that the L at p names, and the words left after it.
pub fn cell_at(t: &View<'_>, p: &[i32]) -> Result<Named, Refusal>
    ensures { result ≡ named_of (way_at (seen t.now) p.now) }
{
    let x = words::number_at(p, 0);
    if tables::VARIABLES <= x {
        return Err(Refusal::at(2, p));
    }
    let q = words::part_from(p, 1);
    let n = words::number_at(q, 0);
    if program::MOST_STEPS < n {
        return Err(Refusal::at(2, q));
    }
    let r = words::part_from(q, 1);
    match land(t, n, x, r) {
        Some(l) => Ok(Named {
            cell: l,
            left: words::less(r.len(), n),
        }),
        None => Err(Refusal::at(7, p)),
    }
}

// The value that the L at p names, by the cell that it names.
pub fn value_at(t: &View<'_>, p: &[i32]) -> Result<Evaluated, Refusal>
    ensures { result ≡ evaluated_of (value_at (seen t.now) p.now) }
{
    let named = cell_at(t, p)?;
    match t.value(named.cell) {
        Some(v) => Ok(Evaluated {
            value: v,
            left: named.left,
        }),
        None => Err(Refusal::at(7, p)),
    }
}
