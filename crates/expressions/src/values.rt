// What an expression comes to, outside C and inside it.
ghost use Rattle.std.specs.Prelude.{◌≡◌, ◌≤◌};
ghost use Rattle.words.specs.Words.{number_at};
ghost use Rattle.tables.specs.Lending.{seen};
ghost use Rattle.rules.specs.Paths.{value_at};
ghost use Rattle.rules.specs.Evaluation.{evaluate};
ghost use Rattle.rules.specs.Evaluation.{gives as kind_given};
ghost use Rattle.expressions.specs.Told.{evaluated_of};
ghost use Rattle.expressions.specs.Following.{landed, slot_in};
ghost use Rattle.expressions.specs.Valuing.{known, unknown, value_only, valued_at, literal_of, identity_of, LeafIs, settled_by, Rows};

use super::operators::{are_same, kind, make, operator, takes_kinds};
use super::paths::value_at;
use crate::{Evaluated, Row, Valued};
use program::{Operator, Refusal};
use tables::{Value, View};

// A value, and the words left after its expression.
fn gives(v: Value, left: usize) -> Valued
    ensures { result ≡ known v left }
{
    Valued {
        value: v,
        exact: true,
        left,
    }
}

// A literal, whose word is the first of q.
fn literal(q: &[i32]) -> Result<Valued, Refusal>
    ensures { result ≡ value_only (literal_of q.now) }
{
    if q.len() == 0 {
        return Err(Refusal { number: 2, word: 0 });
    }
    Ok(gives(Value::Int(words::word_at(q, 0)), q.len() - 1))
}

// What is found n labels, at p, from the variable x on; each cell on the way is read once.
fn find(t: &View<'_>, n: usize, x: usize, p: &[i32]) -> Option<Value>
    ensures { result ≡ slot_in (seen t.now) (landed (seen t.now) n x p.now) }
{
    let mut c = t.cell(x);
    for i in 0..n {
        if words::number(c.kind) != 4 {
            return None;
        }
        let r = words::number(c.payload);
        let l = tables::records::find_field(t.heap, r, words::number_at(p, i))?;
        c = t.cell(l);
    }
    tables::cells::slot_of(c)
}

// The value that the L at q leads to.
fn path(t: &View<'_>, q: &[i32]) -> Result<Valued, Refusal>
    ensures { result ≡ value_only (value_at (seen t.now) q.now) }
{
    let x = words::number_at(q, 0);
    if tables::VARIABLES <= x {
        return Err(Refusal::at(2, q));
    }
    let r = words::part_from(q, 1);
    let n = words::number_at(r, 0);
    if program::MOST_STEPS < n {
        return Err(Refusal::at(2, r));
    }
    let labels = words::part_from(r, 1);
    match find(t, n, x, labels) {
        Some(v) => Ok(gives(v, words::less(labels.len(), n))),
        None => Err(Refusal::at(7, q)),
    }
}

// L == L, whose two paths begin at q.
fn identity(t: &View<'_>, q: &[i32]) -> Result<Valued, Refusal>
    ensures { result ≡ value_only (identity_of (seen t.now) q.now) }
{
    let a = value_at(t, q)?;
    let b = value_at(t, words::part_last(q, a.left))?;
    Ok(gives(Value::Bool(are_same(a.value, b.value)), b.left))
}

// The expression at p, which has no operator.
fn leaf(t: &View<'_>, p: &[i32], form: usize, inside: bool) -> Result<Valued, Refusal>
    requires form_value { form ≡ number_at p.now 0 }
    requires fact { number_at p.now 0 ≡ 25 → ⊥ }
    ensures { LeafIs inside (seen t.now) p.now result }
{
    let q = words::part_from(p, 1);
    match form {
        20 => Ok(gives(Value::Nil, q.len())),
        21 => Ok(gives(Value::Bool(false), q.len())),
        22 => Ok(gives(Value::Bool(true), q.len())),
        23 => literal(q),
        24 => path(t, q),
        26 => {
            if inside {
                return Err(Refusal::at(2, p));
            }
            identity(t, q)
        }
        _ => Err(Refusal::at(2, p)),
    }
}

// Where the arithmetic of an operator leaves 32 bits inside C, a value of the kind that it gives stands in.
#[tactic(auto, using(rules::proofs::OperatorClauses::kinds_given))]
fn stands_in(o: Operator, left: usize) -> Valued
    ensures { result ≡ unknown (kind_given o) left }
{
    let value = match o {
        Operator::Plus => Value::Int(0),
        Operator::Minus => Value::Int(0),
        Operator::Times => Value::Int(0),
        Operator::Unknown => Value::Nil,
        _ => Value::Bool(false),
    };
    Valued {
        value,
        exact: false,
        left,
    }
}

// An operator on two values, after which `left` words are left: kinds (8), then range (9), which is no fault inside C.
fn settled(o: Operator, a: Valued, b: Valued, word: usize, inside: bool) -> Result<Valued, Refusal>
    ensures { result ≡ settled_by inside o a b word }
{
    if !takes_kinds(o, kind(a.value), kind(b.value)) {
        return Err(Refusal { number: 8, word });
    }
    match make(o, a.value, b.value) {
        Ok(v) => {
            if a.exact & b.exact {
                return Ok(gives(v, b.left));
            }
            if inside {
                return Ok(stands_in(o, b.left));
            }
            Err(Refusal { number: 0, word })
        }
        Err(number) => {
            if inside {
                return Ok(stands_in(o, b.left));
            }
            Err(Refusal { number, word })
        }
    }
}

// The operands of the expression at p; 2 at the word that does not read.
fn row_at(p: &[i32], d: usize) -> Result<Row, Refusal>
    ensures { Rows d p.now result }
{
    if d == 0 {
        return Err(Refusal::at(2, p));
    }
    if words::number_at(p, 0) != 25 {
        return Ok(Row {
            operator: None,
            left: p.len(),
            depth: d,
        });
    }
    let q = words::part_from(p, 1);
    let o = words::number_at(q, 0);
    if o == 0 {
        return Err(Refusal::at(2, q));
    }
    if program::OPERATORS < o {
        return Err(Refusal::at(2, q));
    }
    let first = words::part_from(q, 1);
    Ok(Row {
        operator: Some(operator(o)),
        left: first.len(),
        depth: d - 1,
    })
}

// The operand at p, nested at most d deep. One that has no operator is answered here; the other's answer is taken apart and built anew,
// since a copy of the whole goes through memory.
#[cycle(evaluate_at_operand)]
fn operand(t: &View<'_>, p: &[i32], d: usize, inside: bool) -> Result<Valued, Refusal>
    ensures { result ≡ valued_at inside d (seen t.now) p.now }
{
    if d == 0 {
        return Err(Refusal::at(2, p));
    }
    let form = words::number_at(p, 0);
    if form != 25 {
        return leaf(t, p, form, inside);
    }
    let Valued { value, exact, left } = evaluate_at(t, p, d, inside)?;
    Ok(Valued { value, exact, left })
}

// What the expression at p comes to, nested at most d deep, inside C or outside it. Its operands are evaluated left first.
#[cycle(evaluate_at_operand)]
pub fn evaluate_at(t: &View<'_>, p: &[i32], d: usize, inside: bool) -> Result<Valued, Refusal>
    ensures { result ≡ valued_at inside d (seen t.now) p.now }
{
    let row = row_at(p, d)?;
    let mut left = row.left;
    let mut first: Option<Valued> = None;
    loop {
        let q = words::part_last(p, left);
        let j = operand(t, q, row.depth, inside)?;
        let Some(o) = row.operator else {
            return Ok(j);
        };
        if let Some(a) = first {
            return settled(o, a, j, p.len(), inside);
        }
        first = Some(j);
        left = j.left;
    }
}

// The value of the expression at p, and the words left after it.
pub fn find_value(t: &View<'_>, p: &[i32]) -> Result<Evaluated, Refusal>
    ensures { result ≡ evaluated_of (evaluate 16 (seen t.now) p.now) }
{
    let j = evaluate_at(t, p, program::EXPRESSION_DEPTH, false)?;
    Ok(Evaluated {
        value: j.value,
        left: j.left,
    })
}
