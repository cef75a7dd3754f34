// Parts, and what follows always and once.
ghost use Rattle.std.specs.Prelude.{◌≡◌, false, List, ℕ, ◌≤◌, ◌<◌};
ghost use Rattle.tokens.specs.declared.Token.{Token};
ghost use Rattle.text.specs.Reading.{priority as priority_by, part_at, constraint_on, stated_on};
ghost use Rattle.text.specs.Told.{Ahead};
ghost use Rattle.text.specs.Pieces.{Piece, Onward, behind_first, stated_from};

use super::expressions::{expression, onwards};
use super::paths::path;
use crate::{PATH, REQUIRED, Reader};

// The priority that a token of this code writes, 0 for none.
#[tactic(auto, unfolding(crate::specs::Reading::priority))]
fn priority(code: usize) -> usize
    ensures { (text : List ℕ) (t : Token) → t.code ≡ code → result ≡ priority_by text t }
{
    match code {
        tokens::WEAK..=tokens::REQUIRED => code - tokens::WEAK + 1,
        _ => 0,
    }
}

// A part: its priority, which is required where none is written, and its expression.
fn part_at(text: &[u8], r: &mut Reader)
    ensures piece { Ahead text.now r.old.carried → Piece 1 0 r.old.lent r.old.carried (λ q. part_at text.now q) r.new.lent r.new.carried }
    ensures ahead { Ahead text.now r.old.carried → Ahead text.now r.new.carried }
{
    let p = r.carried.start;
    let n = priority(r.carried.code);
    if 0 < n {
        r.carried.take(text, 1);
        r.write_number(n, p);
        expression(text, r, true);
        return;
    }
    r.carried.owe(1);
    r.write(REQUIRED, p);
    expression(text, r, true);
}

// The parts behind the first one, and m, at the word from, which comes from the place p.
fn constraint_on(text: &[u8], r: &mut Reader, from: usize, p: usize)
    ensures onward { Ahead text.now r.old.carried → (most : ℕ) → most ≤ 3 → (r.old.carried.number ≡ 0 → from < r.old.carried.written) → Onward false most most from r.old.lent r.old.carried (λ f q. constraint_on text.now p (behind_first f) q) r.new.lent r.new.carried }
    ensures ahead { Ahead text.now r.old.carried → Ahead text.now r.new.carried }
{
    for m in 1..=program::MOST_PARTS {
        if r.carried.number != 0 {
            return;
        }
        if r.carried.code != tokens::BESIDE {
            r.lent.put_number(from, m, p);
            return;
        }
        r.carried.take(text, 0);
        r.carried.pass(m == program::MOST_PARTS);
        part_at(text, r);
    }
}

// What follows the path behind `always` (3) or `once` (4).
// The statement's word, at from, comes from the place p, the path from the place at.
fn stated_on(text: &[u8], r: &mut Reader, from: usize, verb: usize, p: usize, at: usize)
    requires from_bound { from < 4100 }
    requires verb_bound { verb < 4096 }
    ensures onward { Ahead text.now r.old.carried → from < r.old.carried.written → Onward false 0 3 from r.old.lent r.old.carried (λ f q. stated_on text.now verb p at (behind_first f) q) r.new.lent r.new.carried }
    ensures ahead { Ahead text.now r.old.carried → Ahead text.now r.new.carried }
{
    if r.carried.number != 0 {
        return;
    }
    if r.carried.code == tokens::IDENTICAL {
        r.lent.put_number(from, verb + 2, p);
        r.carried.take(text, 0);
        path(text, r);
        return;
    }
    r.lent.put_number(from, verb, p);
    let gap = [0, REQUIRED, PATH];
    r.carried.owe(3);
    r.insert(from + 1, &gap, at);
    r.carried.deepen(1);
    onwards(text, r, from + 3, program::EXPRESSION_DEPTH - 1, true, 1, 0);
    constraint_on(text, r, from + 1, at);
}

// `always` (3) or `once` (4), with what follows.
pub(crate) fn stated(text: &[u8], r: &mut Reader, verb: usize)
    requires { verb < 4096 }
    ensures piece { Ahead text.now r.old.carried → Piece 0 3 r.old.lent r.old.carried (λ q. stated_from text.now verb q) r.new.lent r.new.carried }
    ensures ahead { Ahead text.now r.old.carried → Ahead text.now r.new.carried }
{
    let from = r.carried.written;
    if crate::ROW <= from {
        return;
    }
    let p = r.carried.start;
    r.carried.take(text, 1);
    r.write_number(verb, p);
    let at = r.carried.start;
    if r.carried.code == tokens::NAME {
        path(text, r);
        stated_on(text, r, from, verb, p, at);
        return;
    }
    let first = r.carried.written;
    r.carried.owe(1);
    r.write(0, at);
    part_at(text, r);
    constraint_on(text, r, first, at);
}
