// The ties of kept identities, followed in the tables as often as they are asked for, and the class of a target as marks.
ghost use Rattle.std.specs.Prelude.{◌≡◌, not, ◌||◌, ◌<◌, ◌≤◌};
ghost use Rattle.words.specs.Bits.{marked};
ghost use Rattle.tables.specs.Sizes.{locations};
ghost use Rattle.tables.specs.Lending.{seen};
ghost use Rattle.rules.specs.State.{slot_at};
ghost use Rattle.rules.specs.Identities.{tie_at, is_node, is};
ghost use Rattle.phases.specs.Sizes.{most_ties};
ghost use Rattle.phases.specs.Tying.{identity_at, tied_of, tie_no, turn_of, Found as Leads, GrowsTie, Passes, PassesOn};
ghost use Rattle.phases.specs.Freezing.{free_way, free_tie, free_ties};
ghost use Rattle.phases.specs.Classing.{class_for, Unmarked, Classes};

use crate::{Class, Ends, Grown, Passed};
use expressions::paths::{cell_at, step};
use program::Refusal;
use tables::{Sort, Value, View};
use words::bits::{is_marked, mark};

// The two cells that the identity at p names.
fn tie_at(t: &View<'_>, p: &[i32]) -> Result<Ends, Refusal>
    ensures { result ≡ tied_of (tie_at (seen t.now) p.now) }
{
    let one = cell_at(t, p)?;
    let two = cell_at(t, words::part_last(p, one.left))?;
    Ok(Ends {
        one: one.cell,
        two: two.cell,
    })
}

// Kept identity number k, from its first side on.
fn identity_at<'a>(program: &'a [i32], constraints: &[i32], k: usize) -> &'a [i32]
    ensures { result.now ≡ identity_at program.now constraints.now k }
{
    let statement = words::part_from(
        program,
        tables::kept::position_at(constraints, Sort::Identities, k),
    );
    words::part_from(statement, 1)
}

// References and nil.
pub fn is_node(v: Value) -> bool
    ensures { result ≡ is_node v }
{
    matches!(v, Value::Nil | Value::Ref(_))
}

// The cell at l holds v.
fn holds(t: &View<'_>, l: usize, v: Value) -> bool
    ensures { result ≡ is (slot_at (seen t.now) l) v }
{
    match t.value(l) {
        None => false,
        Some(w) => expressions::operators::are_same(w, v),
    }
}

// Both ends of a tie that has one end marked are marked.
fn grow_tie(one: usize, two: usize, class: &mut Class) -> Grown
    ensures { GrowsTie one two class.old class.new result }
{
    let a = is_marked(class, one);
    let b = is_marked(class, two);
    if a == b {
        return Grown {
            new: false,
            apart: !a,
        };
    }
    mark(class, one);
    mark(class, two);
    Grown {
        new: true,
        apart: false,
    }
}

// The i-th of n, from the first on or back from the last.
fn turn(n: usize, i: usize, back: bool) -> usize
    ensures { result ≡ turn_of n i back }
{
    if back {
        return words::less(words::less(n, i), 1);
    }
    i
}

// One walk over the n ties, in kept order or back: each that has an end marked has both marked then.
// Another is due where a mark is new after a tie that stayed apart.
fn pass(
    program: &[i32],
    t: &View<'_>,
    n: usize,
    back: bool,
    target: usize,
    class: &mut Class,
) -> Result<Passed, Refusal>
    requires { n ≤ most_ties }
    ensures { Passes (tie_no program.now t.now.constraints.now (seen t.now)) n back target class.old class.new result }
{
    let mut names = false;
    let mut apart = false;
    let mut again = false;
    for i in 0..n {
        let p = identity_at(program, t.constraints, turn(n, i, back));
        let ends = tie_at(t, p)?;
        let g = grow_tie(ends.one, ends.two, class);
        names = names | (ends.one == target) | (ends.two == target);
        again = again | (apart & g.new);
        apart = apart | g.apart;
    }
    Ok(Passed { names, again })
}

// Passes back and forth, after the first, as long as another is due.
fn pass_on(program: &[i32], t: &View<'_>, n: usize, again: bool, target: usize, class: &mut Class)
    requires n_le_most_ties { n ≤ most_ties }
    requires leads { Leads (tie_no program.now t.now.constraints.now (seen t.now)) n }
    ensures { PassesOn (tie_no program.now t.now.constraints.now (seen t.now)) n again class.old class.new }
{
    let mut back = true;
    let mut due = again;
    while due {
        let Ok(passed) = pass(program, t, n, back, target, class) else {
            return;
        };
        due = passed.again;
        back = !back;
    }
}

// The cell at l is not marked, or holds v.
fn may_take(t: &View<'_>, l: usize, class: &Class, v: Value) -> bool
    ensures { result ≡ (not (marked class.now l) || is (slot_at (seen t.now) l) v) }
{
    if !is_marked(class, l) {
        return true;
    }
    holds(t, l, v)
}

// No prefix cell of the L at p is marked and holds anything but v.
pub(crate) fn is_way_free(t: &View<'_>, p: &[i32], class: &Class, v: Value) -> bool
    ensures { result ≡ free_way (seen t.now) (marked class.now) v p.now }
{
    let n = words::number_at(p, 1);
    let labels = words::part_from(p, 2);
    let mut at = words::number_at(p, 0);
    for i in 0..n {
        if !may_take(t, at, class, v) {
            return false;
        }
        if i + 1 == n {
            return true;
        }
        let Some(next) = step(t, at, words::number_at(labels, i)) else {
            return true;
        };
        at = next;
    }
    true
}

// The same of both sides of the identity at p.
fn is_tie_free(t: &View<'_>, p: &[i32], class: &Class, v: Value) -> bool
    ensures { result ≡ free_tie (seen t.now) (marked class.now) v p.now }
{
    if !is_way_free(t, p, class, v) {
        return false;
    }
    let q = words::part_from(words::part_from(p, 2), words::number_at(p, 1));
    is_way_free(t, q, class, v)
}

// The same of n kept identities.
fn is_clash_free(program: &[i32], t: &View<'_>, n: usize, class: &Class, v: Value) -> bool
    ensures { result ≡ free_ties (seen t.now) (marked class.now) v (identity_at program.now t.now.constraints.now) 0 n }
{
    for i in 0..n {
        let p = identity_at(program, t.constraints, i);
        if !is_tie_free(t, p, class, v) {
            return false;
        }
    }
    true
}

// The class of the target is marked: 13, and then 12 for the cells that kept identities freeze.
// Where none is kept, the class is the target.
pub(crate) fn mark_class(
    program: &[i32],
    t: &View<'_>,
    target: usize,
    v: Value,
    class: &mut Class,
    p: &[i32],
) -> Result<(), Refusal>
    requires target_lt_locations { target < locations }
    requires unmarked { Unmarked class.old }
    ensures { Classes class.new result (class_for program.now t.now.constraints.now (seen t.now) p.now target v) }
{
    let n = tables::kept::kept_count(t.constraints, Sort::Identities);
    mark(class, target);
    if n == 0 {
        return Ok(());
    }
    let passed = pass(program, t, n, false, target, class)?;
    if passed.names & !is_node(v) {
        return Err(Refusal::at(13, p));
    }
    pass_on(program, t, n, passed.again, target, class);
    if !is_clash_free(program, t, n, class, v) {
        return Err(Refusal::at(12, p));
    }
    Ok(())
}
