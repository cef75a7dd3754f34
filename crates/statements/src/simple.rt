// Each statement that holds no block, by itself.
ghost use Rattle.std.specs.Prelude.{◌≡◌, ◌≤◌, length, drop};
ghost use Rattle.words.specs.Words.{number_at};
ghost use Rattle.tables.specs.Sizes.{most_fields};
ghost use Rattle.tables.specs.Lending.{seen, StillLent};
ghost use Rattle.program.specs.Forms.{verb_of};
ghost use Rattle.rules.specs.Statements.{has_room, keep, do_assign, field_words, do_new, do_constraint, do_identity, do_simple};
ghost use Rattle.phases.specs.Told.{state_in, Does};
ghost use Rattle.statements.specs.Filling.{fields_words, Fills};

use super::identities::same_now;
use crate::FIELDS_WORDS;
use expressions::values::find_value;
use phases::Done;
use phases::giving::{give, give_new};
use program::reading::{read_path, words_left};
use program::{Refusal, Verb};
use proposals::Asked;
use proposals::settling::settle;
use tables::{Moving, Sort, Tables, View};

// The assignment at p: its expression, and then its target.
fn assign(
    program: &[i32],
    t: &mut Tables<'_>,
    proposals: &[i32],
    p: &[i32],
) -> Result<Done, Refusal>
    ensures does { Does (state_in t.old) (state_in t.new) result (do_assign program.now p.now (state_in t.old) proposals.now) }
    ensures lent { StillLent t.old t.new }
{
    let q = words::part_from(p, 1);
    let left = words_left(read_path(q));
    let e = words::part_last(q, left);
    let seen = t.view();
    let v = find_value(&seen, e)?.value;
    let kept = &mut *t.constraints;
    let mut m = Moving {
        environment: &mut *t.environment,
        heap: &mut *t.heap,
        constraints: kept,
    };
    give(program, &mut m, proposals, p, v)
}

// n times label and e, at p: the label, kind and payload of each field.
fn field_words(t: &View<'_>, p: &[i32], n: usize, fields: &mut [i32]) -> Result<(), Refusal>
    requires n_le_most_fields { n ≤ most_fields }
    requires fields_words_in_bounds { fields_words ≤ length fields.old }
    ensures { Fills fields.new n result (field_words n (seen t.now) p.now) }
{
    let mut left = p.len();
    for i in 0..n {
        let q = words::part_last(p, left);
        let label = words::number_at(q, 0);
        if tables::LABELS <= label {
            return Err(Refusal::at(2, q));
        }
        let v = find_value(t, words::part_from(q, 1))?;
        let c = tables::cells::cell_of(v.value);
        words::store(fields, 3 * i, words::word_of(label));
        words::store(fields, 3 * i + 1, c.kind);
        words::store(fields, 3 * i + 2, c.payload);
        left = v.left;
    }
    Ok(())
}

// The new at p: its expressions, and then the record.
fn make_new(
    program: &[i32],
    t: &mut Tables<'_>,
    proposals: &[i32],
    p: &[i32],
) -> Result<Done, Refusal>
    ensures does { Does (state_in t.old) (state_in t.new) result (do_new program.now p.now (state_in t.old) proposals.now) }
    ensures lent { StillLent t.old t.new }
{
    let q = words::part_from(p, 1);
    let x = words::number_at(q, 0);
    if tables::VARIABLES <= x {
        return Err(Refusal::at(2, q));
    }
    let r = words::part_from(q, 1);
    let n = words::number_at(r, 0);
    if tables::FIELDS < n {
        return Err(Refusal::at(2, r));
    }
    let seen = t.view();
    let mut fields = [0i32; FIELDS_WORDS];
    field_words(&seen, words::part_from(r, 1), n, &mut fields)?;
    let kept = &mut *t.constraints;
    let mut m = Moving {
        environment: &mut *t.environment,
        heap: &mut *t.heap,
        constraints: kept,
    };
    give_new(program, &mut m, proposals, p, x, &fields, n)
}

// There is room for a position not yet kept.
fn has_room(constraints: &[i32], s: Sort, position: usize) -> bool
    ensures { result ≡ has_room constraints.now s position }
{
    if tables::kept::is_kept(constraints, s, position) {
        return true;
    }
    tables::kept::kept_count(constraints, s) < tables::kept::most_kept(s)
}

// A position is kept; one already kept is not added again.
fn keep_once(constraints: &mut [i32], s: Sort, position: usize)
    ensures { constraints.new ≡ keep constraints.old s position }
{
    if tables::kept::is_kept(constraints, s, position) {
        return;
    }
    tables::kept::keep(constraints, s, position);
}

// The always C, or the once C, at p.
fn constrain(
    program: &[i32],
    t: &mut Tables<'_>,
    proposals: &[i32],
    p: &[i32],
    keeps: bool,
) -> Result<Done, Refusal>
    ensures does { Does (state_in t.old) (state_in t.new) result (do_constraint keeps program.now p.now (state_in t.old) proposals.now) }
    ensures lent { StillLent t.old t.new }
{
    let position = words::less(program.len(), p.len());
    let seen = t.view();
    let asked = Asked {
        own: Some(words::part_from(p, 1)),
        target: None,
        room: !keeps | has_room(seen.constraints, Sort::Values, position),
    };
    let positions = &mut *t.constraints;
    let mut m = Moving {
        environment: &mut *t.environment,
        heap: &mut *t.heap,
        constraints: positions,
    };
    let unread = settle(program, &mut m, proposals, p, asked)?;
    if keeps {
        keep_once(t.constraints, Sort::Values, position);
    }
    Ok(Done {
        unread,
        accepted: 1,
    })
}

// The always L == L, or the once L == L, at p. No proposal is read.
fn identify(
    program: &[i32],
    t: &mut Tables<'_>,
    proposals: &[i32],
    p: &[i32],
    keeps: bool,
) -> Result<Done, Refusal>
    ensures does { Does (state_in t.old) (state_in t.new) result (do_identity keeps program.now p.now (state_in t.old) proposals.now) }
    ensures lent { StillLent t.old t.new }
{
    let position = words::less(program.len(), p.len());
    let done = Done {
        unread: proposals.len(),
        accepted: 0,
    };
    let seen = t.view();
    same_now(&seen, p)?;
    if !keeps {
        return Ok(done);
    }
    if !has_room(seen.constraints, Sort::Identities, position) {
        return Err(Refusal::at(14, p));
    }
    keep_once(t.constraints, Sort::Identities, position);
    Ok(done)
}

// The statement at p, whose verb this is. One that holds blocks is refused with 2 here.
pub fn simple_at(
    program: &[i32],
    t: &mut Tables<'_>,
    proposals: &[i32],
    p: &[i32],
    verb: Verb,
) -> Result<Done, Refusal>
    ensures does { Does (state_in t.old) (state_in t.new) result (do_simple program.now p.now (state_in t.old) proposals.now verb) }
    ensures lent { StillLent t.old t.new }
{
    match verb {
        Verb::Skip => Ok(Done {
            unread: proposals.len(),
            accepted: 0,
        }),
        Verb::Assign => assign(program, t, proposals, p),
        Verb::New => make_new(program, t, proposals, p),
        Verb::Always => constrain(program, t, proposals, p, true),
        Verb::Once => constrain(program, t, proposals, p, false),
        Verb::AlwaysSame => identify(program, t, proposals, p, true),
        Verb::OnceSame => identify(program, t, proposals, p, false),
        _ => Err(Refusal::at(2, p)),
    }
}

// The statement whose first word is at a position of the program, by itself.
pub fn alone(
    program: &[i32],
    t: &mut Tables<'_>,
    proposals: &[i32],
    position: usize,
) -> Result<Done, Refusal>
    ensures does { Does (state_in t.old) (state_in t.new) result (do_simple program.now (drop position program.now) (state_in t.old) proposals.now (verb_of (number_at (drop position program.now) 0))) }
    ensures lent { StillLent t.old t.new }
{
    let p = words::part_from(program, position);
    simple_at(program, t, proposals, p, Verb::from(words::number_at(p, 0)))
}
