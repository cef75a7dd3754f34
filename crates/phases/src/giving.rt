// A target's class takes a value, and then one proposal is read. A refusal leaves every word as it was.
ghost use Rattle.std.specs.Prelude.{◌≡◌, ◌≤◌, ◌*◌, length};
ghost use Rattle.words.specs.Bits.{next_marked};
ghost use Rattle.tables.specs.declared.Value.TheVariants.{Ref};
ghost use Rattle.tables.specs.Cells.{cells, put_pair};
ghost use Rattle.tables.specs.Lending.{cells_moved, StillMoved};
ghost use Rattle.tables.specs.Records.{record_count, with_record};
ghost use Rattle.rules.specs.Identities.{put_all};
ghost use Rattle.rules.specs.Statements.{value_phase};
ghost use Rattle.phases.specs.Sizes.{class_cells};
ghost use Rattle.phases.specs.Told.{state_moved, Does};
ghost use Rattle.phases.specs.Taking.{cells_of, held_again, Gives};
ghost use Rattle.phases.specs.Classing.{gives, gives_new};

use super::classes::{is_way_free, mark_class};
use crate::{CLASS_WORDS, Class, Done, MARKS_WORDS, ROOM_WORDS};
use expressions::paths::cell_at;
use program::Refusal;
use proposals::Asked;
use proposals::settling::settle;
use tables::{Cell, Moving, Value};

// The first marked cell from l on; no location where none is.
fn next_marked(class: &Class, l: usize) -> usize
    ensures { result ≡ next_marked class.now l }
{
    let at = l / 64;
    if MARKS_WORDS <= at {
        return l;
    }
    let rest = class[at] >> (l % 64);
    if rest != 0 {
        return l + u64::trailing_zeros(rest) as usize;
    }
    for i in at + 1..MARKS_WORDS {
        let word = class[i];
        if word != 0 {
            return 64 * i + u64::trailing_zeros(word) as usize;
        }
    }
    64 * MARKS_WORDS
}

// The cell c is laid by as number i of the saved ones; nothing is stored where there are no such words.
fn lay_by(saved: &mut [i32], i: usize, c: Cell)
    ensures { saved.new ≡ put_pair saved.old (2 * i) c }
{
    if saved.len() <= i {
        return;
    }
    words::store(saved, 2 * i, c.kind);
    words::store(saved, 2 * i + 1, c.payload);
}

// The marked cells take the value; what was there is laid by, in their order.
fn put_class(t: &mut Moving<'_>, class: &Class, v: Value, saved: &mut [i32])
    requires { 2 * length (cells_of class.now) ≤ length saved.old }
    ensures gives { Gives (cells_moved t.old) (cells_moved t.new) class.now saved.new v }
    ensures rest { StillMoved t.old t.new }
{
    let mut i: usize = 0;
    let mut l = next_marked(class, 0);
    while l < tables::LOCATIONS {
        lay_by(saved, i, t.view().cell(l));
        t.put(l, tables::cells::cell_of(v));
        i += 1;
        l = next_marked(class, l + 1);
    }
}

// The marked cells hold again what was laid by.
fn take_back(t: &mut Moving<'_>, class: &Class, saved: &[i32])
    ensures cells { cells_moved t.new ≡ held_again saved.now (cells_of class.now) 0 (cells_moved t.old) }
    ensures rest { StillMoved t.old t.new }
{
    let mut i: usize = 0;
    let mut at = next_marked(class, 0);
    while at < tables::LOCATIONS {
        t.put(at, tables::cells::pair_at(saved, 2 * i));
        i += 1;
        at = next_marked(class, at + 1);
    }
}

// The marked cells, the target among them, take the value, and then the value phase.
fn move_class(
    program: &[i32],
    t: &mut Moving<'_>,
    proposals: &[i32],
    class: &Class,
    target: usize,
    v: Value,
    p: &[i32],
) -> Result<Done, Refusal>
    requires { length (cells_of class.now) ≤ class_cells }
    ensures does { Does (state_moved t.old) (state_moved t.new) result (value_phase program.now t.old.constraints.now p.now target (put_all (cells_moved t.old) (cells_of class.now) v) proposals.now) }
    ensures rest { StillMoved t.old t.new }
{
    let mut saved = [0i32; CLASS_WORDS];
    put_class(t, class, v, &mut saved);
    let asked = Asked {
        own: None,
        target: Some(target),
        room: true,
    };
    match settle(program, t, proposals, p, asked) {
        Ok(unread) => Ok(Done {
            unread,
            accepted: 1,
        }),
        Err(fault) => {
            take_back(t, class, &saved);
            Err(fault)
        }
    }
}

// The L of the assignment at p takes the value v: 7, 13, 12, and then the value phase.
pub fn give(
    program: &[i32],
    t: &mut Moving<'_>,
    proposals: &[i32],
    p: &[i32],
    v: Value,
) -> Result<Done, Refusal>
    ensures does { Does (state_moved t.old) (state_moved t.new) result (gives program.now p.now (state_moved t.old) proposals.now v) }
    ensures rest { StillMoved t.old t.new }
{
    let q = words::part_from(p, 1);
    let seen = t.view();
    let target = cell_at(&seen, q)?.cell;
    let mut class = [0u64; MARKS_WORDS];
    mark_class(program, &seen, target, v, &mut class, p)?;
    if !is_way_free(&seen, q, &class, v) {
        return Err(Refusal::at(12, p));
    }
    move_class(program, t, proposals, &class, target, v, p)
}

// A record of n fields is added, and the cells of a class take a reference to it; the record is taken away where that is refused.
fn move_new(
    program: &[i32],
    t: &mut Moving<'_>,
    proposals: &[i32],
    class: &Class,
    x: usize,
    fields: &[i32],
    n: usize,
    p: &[i32],
) -> Result<Done, Refusal>
    requires { length (cells_of class.now) ≤ class_cells }
    ensures does { Does (state_moved t.old) (state_moved t.new) result (value_phase program.now t.old.constraints.now p.now x (put_all (cells t.old.environment.now (with_record t.old.heap.now fields.now n)) (cells_of class.now) (Ref (record_count t.old.heap.now))) proposals.now) }
    ensures rest { StillMoved t.old t.new }
{
    let seen = t.view();
    let v = Value::Ref(tables::records::record_count(seen.heap));
    let mut room = [0i32; ROOM_WORDS];
    tables::records::lay_by(seen.heap, &mut room);
    tables::records::add_record(t.heap, fields, n);
    match move_class(program, t, proposals, class, x, v, p) {
        Ok(done) => Ok(done),
        Err(fault) => {
            tables::records::bring_back(t.heap, &room);
            Err(fault)
        }
    }
}

// The variable x, which is reached through no cells, takes a new record of n fields:
// 2 where there is no such variable, 10, 13, 12, and then the value phase.
pub fn give_new(
    program: &[i32],
    t: &mut Moving<'_>,
    proposals: &[i32],
    p: &[i32],
    x: usize,
    fields: &[i32],
    n: usize,
) -> Result<Done, Refusal>
    ensures does { Does (state_moved t.old) (state_moved t.new) result (gives_new program.now p.now (state_moved t.old) proposals.now x fields.now n) }
    ensures rest { StillMoved t.old t.new }
{
    if tables::VARIABLES <= x {
        return Err(Refusal::at(2, words::part_from(p, 1)));
    }
    let seen = t.view();
    let r = tables::records::record_count(seen.heap);
    if tables::RECORDS <= r {
        return Err(Refusal::at(10, p));
    }
    let mut class = [0u64; MARKS_WORDS];
    mark_class(program, &seen, x, Value::Ref(r), &mut class, p)?;
    move_new(program, t, proposals, &class, x, fields, n, p)
}
