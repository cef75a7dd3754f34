// Operands, brackets and operators.
ghost use Rattle.std.specs.Prelude.{◌≡◌, true, false, cond, ◌&&◌, List, ℕ, suc, ◌-◌, ◌≤◌, ◌<◌, ltb, leb};
ghost use Rattle.text.specs.Reading.{level_of, is_operator, enough, peek as peek_by, literal as literal_by, literal_at, path_or_same, operand as operand_by, onwards as onwards_by, climb as climb_by, expression as expression_by};
ghost use Rattle.text.specs.Told.{next_of, Ahead};
ghost use Rattle.text.specs.Pieces.{Piece, Expression, Onward, Opens, number_by, constant_by, joined_by};

use super::levels::level_of;
use super::paths::path;
use crate::{Carried, PATH, Reader};

const NIL: i32 = 20;

const FALSE: i32 = 21;

const TRUE: i32 = 22;

const INTEGER: i32 = 23;

const OPERATION: i32 = 25;

const SAME: i32 = 26;

// A number's two words.
fn number(text: &[u8], r: &mut Reader)
    ensures piece { Ahead text.now r.old.carried → Piece 3 0 r.old.lent r.old.carried (λ q. number_by text.now q) r.new.lent r.new.carried }
    ensures ahead { Ahead text.now r.old.carried → Ahead text.now r.new.carried }
{
    let p = r.carried.start;
    match tokens::numbers::value(text, p, r.carried.end) {
        None => {
            r.carried.pass(true);
            r.carried.take(text, 2);
        }
        Some(w) => {
            r.carried.take(text, 2);
            r.write(INTEGER, p);
            r.write(w, p);
        }
    }
}

// A token that gives one word, always the same: nil, a truth value, skip.
pub(crate) fn constant(text: &[u8], r: &mut Reader, w: i32)
    ensures piece { Ahead text.now r.old.carried → Piece 3 0 r.old.lent r.old.carried (λ q. constant_by text.now w q) r.new.lent r.new.carried }
    ensures ahead { Ahead text.now r.old.carried → Ahead text.now r.new.carried }
{
    let p = r.carried.start;
    r.carried.take(text, 1);
    r.write(w, p);
}

// nil, a truth value or a number.
fn literal(text: &[u8], r: &mut Reader)
    ensures piece { Ahead text.now r.old.carried → Piece 3 0 r.old.lent r.old.carried (λ q. literal_at text.now q (literal_by text.now (peek_by text.now q))) r.new.lent r.new.carried }
    ensures ahead { Ahead text.now r.old.carried → Ahead text.now r.new.carried }
{
    if r.carried.number != 0 {
        return;
    }
    match r.carried.code {
        tokens::NIL => constant(text, r, NIL),
        tokens::FALSE => constant(text, r, FALSE),
        tokens::TRUE => constant(text, r, TRUE),
        tokens::NUMBER => number(text, r),
        _ => r.carried.refused(),
    }
}

// A path with its 24; outside C, two with `==` between them.
fn path_or_same(text: &[u8], r: &mut Reader, in_c: bool)
    ensures piece { Ahead text.now r.old.carried → Piece 2 0 r.old.lent r.old.carried (λ q. path_or_same text.now in_c q) r.new.lent r.new.carried }
    ensures ahead { Ahead text.now r.old.carried → Ahead text.now r.new.carried }
{
    let from = r.carried.written;
    let p = r.carried.start;
    r.carried.owe(1);
    r.write(PATH, p);
    path(text, r);
    if in_c {
        return;
    }
    if r.carried.number != 0 {
        return;
    }
    if r.carried.code != tokens::IDENTICAL {
        return;
    }
    r.lent.put_word(from, SAME, r.carried.start);
    r.carried.take(text, 0);
    path(text, r);
}

// What operators join.
fn operand(text: &[u8], r: &mut Reader, in_c: bool)
    ensures piece { Ahead text.now r.old.carried → Piece 2 0 r.old.lent r.old.carried (λ q. operand_by text.now in_c q) r.new.lent r.new.carried }
    ensures ahead { Ahead text.now r.old.carried → Ahead text.now r.new.carried }
{
    if r.carried.number != 0 {
        return;
    }
    if r.carried.code == tokens::NAME {
        path_or_same(text, r, in_c);
        return;
    }
    literal(text, r);
}

impl Carried {
    // How many brackets open, one after the other.
    fn opened(&mut self, text: &[u8])
        ensures opens { Ahead text.now self.old → Opens text.now self.old self.new }
        ensures ahead { Ahead text.now self.old → Ahead text.now self.new }
    {
        for b in 0..text.len() + 1 {
            if self.number != 0 {
                return;
            }
            if self.code != tokens::OPEN_BRACKET {
                self.count(b);
                return;
            }
            self.take(text, 0);
        }
        self.count(text.len() + 1);
    }
}

// The token is an operator that binds as tightly as low or more; inside brackets every one does.
fn joins(code: usize, low: usize, brackets: usize) -> bool
    ensures { result ≡ is_operator code && leb (cond (ltb 0 brackets) 1 low) (level_of (code - 40)) }
{
    match code {
        tokens::PLUS..=tokens::OR => 0 < brackets || low <= level_of(code - tokens::OPERATORS),
        _ => false,
    }
}

// One level above the deeper of two operands that are no deeper than they may be.
fn above(a: usize, b: usize) -> usize
    ensures { a < 4096 → b < 4096 → result ≡ suc (cond (ltb a b) b a) }
{
    a.max(b).saturating_add(1)
}

// The operator to be judged, behind the operand that is written from a place on, and its right operand.
#[cycle(climb_joined_onwards)]
fn joined(text: &[u8], r: &mut Reader, from: usize, left: usize, in_c: bool)
    requires { left < 4096 }
    ensures onward { Ahead text.now r.old.carried → is_operator r.old.carried.code ≡ true → (most : ℕ) → most ≤ 3 → Onward true most most from r.old.lent r.old.carried (λ f q. joined_by text.now left in_c (next_of r.old.carried) f q) r.new.lent r.new.carried }
    ensures depth_bound { Ahead text.now r.old.carried → r.new.carried.number ≡ 0 → r.new.carried.depth ≤ suc left }
    ensures ahead { Ahead text.now r.old.carried → Ahead text.now r.new.carried }
{
    let depth = r.carried.depth;
    let k = r.carried.code.saturating_sub(tokens::OPERATORS);
    let p = r.carried.start;
    r.carried.pass(left < depth);
    r.carried.take(text, 2);
    if r.carried.number != 0 {
        return;
    }
    let gap = [OPERATION, words::word_of(k)];
    r.insert(from, &gap, p);
    climb(text, r, left, in_c, level_of(k) + 1);
    if r.carried.number != 0 {
        return;
    }
    let right = r.carried.depth;
    r.carried.deepen(above(depth, right));
}

// Operators behind the operand that is written from a place on, each with its right operand: those that bind as tightly as low
// or more, and inside the brackets that are open all.
#[cycle(climb_joined_onwards)]
pub(crate) fn onwards(
    text: &[u8],
    r: &mut Reader,
    from: usize,
    left: usize,
    in_c: bool,
    low: usize,
    brackets: usize,
)
    requires { left < 4096 }
    ensures onward { Ahead text.now r.old.carried → (most : ℕ) → most ≤ 3 → Onward true most most from r.old.lent r.old.carried (λ f q. onwards_by text.now (λ l v. climb_by text.now left in_c l v) (enough text.now) left low brackets f q) r.new.lent r.new.carried }
    ensures depth_bound { Ahead text.now r.old.carried → (r.old.carried.number ≡ 0 → r.old.carried.depth ≤ suc left) → r.new.carried.number ≡ 0 → r.new.carried.depth ≤ suc left }
    ensures ahead { Ahead text.now r.old.carried → Ahead text.now r.new.carried }
{
    let mut b = brackets;
    for _round in 0..text.len() + 1 {
        if r.carried.number != 0 {
            return;
        }
        let code = r.carried.code;
        if (code == tokens::CLOSE_BRACKET) & (0 < b) {
            r.carried.take(text, 0);
            b -= 1;
        } else {
            if !joins(code, low, b) {
                if 0 < b {
                    r.carried.refused();
                }
                return;
            }
            joined(text, r, from, left, in_c);
        }
    }
    if r.carried.number != 0 {
        return;
    }
    r.carried.refused();
}

// Operands joined by operators that bind as tightly as low or more, nested at most so deep.
#[cycle(climb_joined_onwards)]
fn climb(text: &[u8], r: &mut Reader, left: usize, in_c: bool, low: usize)
    requires { left < 4096 }
    ensures expression { Ahead text.now r.old.carried → Expression 2 0 r.old.lent r.old.carried (λ q. climb_by text.now left in_c low q) r.new.lent r.new.carried }
    ensures depth_bound { Ahead text.now r.old.carried → r.new.carried.number ≡ 0 → r.new.carried.depth ≤ left }
    ensures ahead { Ahead text.now r.old.carried → Ahead text.now r.new.carried }
{
    if r.carried.number != 0 {
        return;
    }
    if left == 0 {
        r.carried.refused();
        return;
    }
    let from = r.carried.written;
    r.carried.opened(text);
    let brackets = r.carried.named;
    operand(text, r, in_c);
    r.carried.deepen(1);
    onwards(text, r, from, left - 1, in_c, low, brackets);
}

// A whole expression.
pub(crate) fn expression(text: &[u8], r: &mut Reader, in_c: bool)
    ensures expression { Ahead text.now r.old.carried → Expression 2 0 r.old.lent r.old.carried (λ q. expression_by text.now in_c q) r.new.lent r.new.carried }
    ensures ahead { Ahead text.now r.old.carried → Ahead text.now r.new.carried }
{
    climb(text, r, program::EXPRESSION_DEPTH, in_c, 1);
}
