// Statements and blocks.
ghost use Rattle.std.specs.Prelude.{◌≡◌, false, ◌<◌};
ghost use Rattle.tokens.specs.Codes.{if_code, while_code};
ghost use Rattle.text.specs.Reading.{statement_at, block_at};
ghost use Rattle.text.specs.Told.{Ahead};
ghost use Rattle.text.specs.Pieces.{Piece, Onward, behind_first, next_code, row_by};

use super::assignments::assignment;
use super::constraints::stated;
use super::expressions::{constant, expression};
use crate::Reader;

const SKIP: i32 = 0;

const ALWAYS: usize = 3;

const ONCE: usize = 4;

const IF: i32 = 7;

const WHILE: i32 = 8;

// if, with its test and its blocks.
#[cycle(block_conditional_repeated_statement_statements)]
fn conditional(text: &[u8], r: &mut Reader, d: usize)
    ensures piece { Ahead text.now r.old.carried → next_code text.now r.old.carried ≡ if_code → Piece 0 3 r.old.lent r.old.carried (λ q. statement_at text.now (λ v. block_at text.now d v) q) r.new.lent r.new.carried }
    ensures ahead { Ahead text.now r.old.carried → Ahead text.now r.new.carried }
{
    let p = r.carried.start;
    r.carried.take(text, 1);
    r.write(IF, p);
    expression(text, r, false);
    r.carried.need(text, tokens::THEN, 0);
    block(text, r, d);
    r.carried.need(text, tokens::ELSE, 0);
    block(text, r, d);
}

// while, with its test and its block.
#[cycle(block_conditional_repeated_statement_statements)]
fn repeated(text: &[u8], r: &mut Reader, d: usize)
    ensures piece { Ahead text.now r.old.carried → next_code text.now r.old.carried ≡ while_code → Piece 0 3 r.old.lent r.old.carried (λ q. statement_at text.now (λ v. block_at text.now d v) q) r.new.lent r.new.carried }
    ensures ahead { Ahead text.now r.old.carried → Ahead text.now r.new.carried }
{
    let p = r.carried.start;
    r.carried.take(text, 1);
    r.write(WHILE, p);
    expression(text, r, false);
    r.carried.need(text, tokens::DO, 0);
    block(text, r, d);
}

// A statement, whose blocks nest at most d deep.
#[cycle(block_conditional_repeated_statement_statements)]
fn statement(text: &[u8], r: &mut Reader, d: usize)
    ensures piece { Ahead text.now r.old.carried → Piece 0 3 r.old.lent r.old.carried (λ q. statement_at text.now (λ v. block_at text.now d v) q) r.new.lent r.new.carried }
    ensures ahead { Ahead text.now r.old.carried → Ahead text.now r.new.carried }
{
    if r.carried.number != 0 {
        return;
    }
    match r.carried.code {
        tokens::NAME => assignment(text, r),
        tokens::SKIP => constant(text, r, SKIP),
        tokens::ALWAYS => stated(text, r, ALWAYS),
        tokens::ONCE => stated(text, r, ONCE),
        tokens::IF => conditional(text, r, d),
        tokens::WHILE => repeated(text, r, d),
        _ => r.carried.refused(),
    }
}

// One or more statements, parted by `;`, and their n, at the word from, which comes from the place p.
#[cycle(block_conditional_repeated_statement_statements)]
pub(crate) fn statements(text: &[u8], r: &mut Reader, from: usize, p: usize, d: usize)
    ensures onward { Ahead text.now r.old.carried → (r.old.carried.number ≡ 0 → from < r.old.carried.written) → Onward false 0 3 from r.old.lent r.old.carried (λ f q. row_by text.now d p (behind_first f) q) r.new.lent r.new.carried }
    ensures ahead { Ahead text.now r.old.carried → Ahead text.now r.new.carried }
{
    for n in 0..=program::MOST_STATEMENTS {
        r.carried.pass(n == program::MOST_STATEMENTS);
        statement(text, r, d);
        if r.carried.number != 0 {
            return;
        }
        if r.carried.code != tokens::SEMICOLON {
            r.lent.put_number(from, n + 1, p);
            return;
        }
        r.carried.take(text, 0);
    }
}

// A block in its braces, which nests at most d deep.
#[cycle(block_conditional_repeated_statement_statements)]
fn block(text: &[u8], r: &mut Reader, d: usize)
    ensures piece { Ahead text.now r.old.carried → Piece 0 0 r.old.lent r.old.carried (λ q. block_at text.now d q) r.new.lent r.new.carried }
    ensures ahead { Ahead text.now r.old.carried → Ahead text.now r.new.carried }
{
    let from = r.carried.written;
    let p = r.carried.start;
    r.carried.pass(d == 0);
    r.carried.need(text, tokens::OPEN_BRACE, 1);
    if d == 0 {
        return;
    }
    r.write(0, p);
    if r.carried.code == tokens::CLOSE_BRACE {
        r.carried.take(text, 0);
        return;
    }
    statements(text, r, from, p, d - 1);
    r.carried.need(text, tokens::CLOSE_BRACE, 0);
}
