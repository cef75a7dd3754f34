// A payload put in a cell that keeps its kind; and payloads put back, one for each pair of words whose first is a location.
ghost use Rattle.std.specs.Prelude.{◌≡◌, ◌≤◌};
ghost use Rattle.tables.specs.Sizes.{locations};
ghost use Rattle.tables.specs.Lending.{cells_moved, StillMoved};
ghost use Rattle.proposals.specs.Undoing.{undone, Swaps};

use tables::{Cell, Moving};

// The cell at l takes the payload w and keeps its kind; the answer is the payload that it had.
pub(crate) fn put_payload(t: &mut Moving<'_>, l: usize, w: i32) -> i32
    ensures swaps { Swaps (cells_moved t.old) (cells_moved t.new) l w result }
    ensures rest { StillMoved t.old t.new }
{
    let old = t.view().cell(l);
    t.put(
        l,
        Cell {
            kind: old.kind,
            payload: w,
        },
    );
    old.payload
}

// The n payloads that were laid by are put back, the last first.
pub(crate) fn put_back(t: &mut Moving<'_>, pairs: &[i32], n: usize, saved: &[i32])
    requires { n ≤ locations }
    ensures cells { cells_moved t.new ≡ undone pairs.now saved.now n (cells_moved t.old) }
    ensures rest { StillMoved t.old t.new }
{
    for i in (0..n).rev() {
        let l = words::number_at(pairs, 2 * i);
        put_payload(t, l, words::word_at(saved, i));
    }
}
