// The operators: the kinds that they take, and what they make of two values.
ghost use Rattle.std.specs.Prelude.{◌≡◌};
ghost use Rattle.rules.specs.Evaluation.{kind_of, int_of, bool_of, an_int, a_bool, the_nil, two, same, comparable, takes, made, op_of};
ghost use Rattle.expressions.specs.Told.{ranged_of, applied_of, kind_number, kind_from};
ghost use Rattle.expressions.specs.Judging.{truth_of};

use program::{Operator, Refusal};
use tables::{Kind, Value};

// The operator of a number, by document 01.
#[tactic(auto, using(rules::proofs::OperatorClauses::operator_numbers))]
pub fn operator(n: usize) -> Operator
    ensures { result ≡ op_of n }
{
    match n {
        1 => Operator::Plus,
        2 => Operator::Minus,
        3 => Operator::Times,
        4 => Operator::Below,
        5 => Operator::AtMost,
        6 => Operator::Equal,
        7 => Operator::Unequal,
        8 => Operator::AtLeast,
        9 => Operator::Above,
        10 => Operator::And,
        11 => Operator::Or,
        _ => Operator::Unknown,
    }
}

// The kind of a value.
pub fn kind(v: Value) -> Kind
    ensures { result ≡ kind_of v }
{
    match v {
        Value::Nil => Kind::Nil,
        Value::Bool(_) => Kind::Bool,
        Value::Int(_) => Kind::Int,
        Value::Ref(_) => Kind::Ref,
    }
}

// A kind's number, by document 01.
pub fn kind_number(k: Kind) -> usize
    ensures { result ≡ kind_number k }
{
    match k {
        Kind::Nil => 1,
        Kind::Bool => 2,
        Kind::Int => 3,
        Kind::Ref => 4,
    }
}

// The kind of a number; a number that is no kind is taken as a reference, which no operator takes.
pub fn kind_from(n: usize) -> Kind
    ensures { result ≡ kind_from n }
{
    if n == 1 {
        return Kind::Nil;
    }
    if n == 2 {
        return Kind::Bool;
    }
    if n == 3 {
        return Kind::Int;
    }
    Kind::Ref
}

// The number of an integer, 0 for any other value.
pub fn int_of(v: Value) -> i32
    ensures { result ≡ int_of v }
{
    match v {
        Value::Int(n) => n,
        _ => 0,
    }
}

// A boolean, false for any other value.
pub fn bool_of(v: Value) -> bool
    ensures { result ≡ bool_of v }
{
    match v {
        Value::Bool(b) => b,
        _ => false,
    }
}

// A boolean; 8 at the word where the value is none.
pub(crate) fn truth(v: Value, word: usize) -> Result<bool, Refusal>
    ensures { result ≡ truth_of v word }
{
    match v {
        Value::Bool(b) => Ok(b),
        _ => Err(Refusal { number: 8, word }),
    }
}

// The same kind and the same payload. The words of the cells are compared: two references that no word is are one word.
pub fn are_same(a: Value, b: Value) -> bool
    ensures { result ≡ same a b }
{
    let x = tables::cells::cell_of(a);
    let y = tables::cells::cell_of(b);
    (x.kind == y.kind) & (x.payload == y.payload)
}

fn are_ints(a: Kind, b: Kind) -> bool
    ensures { result ≡ two an_int a b }
{
    matches!(a, Kind::Int) & matches!(b, Kind::Int)
}

fn are_bools(a: Kind, b: Kind) -> bool
    ensures { result ≡ two a_bool a b }
{
    matches!(a, Kind::Bool) & matches!(b, Kind::Bool)
}

fn are_nils(a: Kind, b: Kind) -> bool
    ensures { result ≡ two the_nil a b }
{
    matches!(a, Kind::Nil) & matches!(b, Kind::Nil)
}

// Two of one kind, and no references: two nils, two booleans or two integers.
fn are_comparable(a: Kind, b: Kind) -> bool
    ensures { result ≡ comparable a b }
{
    are_ints(a, b) | are_bools(a, b) | are_nils(a, b)
}

// Whether an operator takes operands of these kinds.
#[tactic(auto, using(rules::proofs::OperatorClauses::kinds_taken))]
pub fn takes_kinds(o: Operator, a: Kind, b: Kind) -> bool
    ensures { result ≡ takes o a b }
{
    match o {
        Operator::Equal => are_comparable(a, b),
        Operator::Unequal => are_comparable(a, b),
        Operator::And => are_bools(a, b),
        Operator::Or => are_bools(a, b),
        Operator::Unknown => false,
        _ => are_ints(a, b),
    }
}

// A result that must be a word: 9 where it is none.
fn in_range(r: Option<i32>) -> Result<Value, usize>
    ensures { result ≡ ranged_of r }
{
    match r {
        Some(n) => Ok(Value::Int(n)),
        None => Err(9),
    }
}

// What an operator makes of two values whose kinds it takes; or the refusal's number.
#[tactic(auto, using(rules::proofs::OperatorClauses::values_made))]
pub fn make(o: Operator, a: Value, b: Value) -> Result<Value, usize>
    ensures { result ≡ applied_of (made o a b) }
{
    match o {
        Operator::Plus => in_range(words::plus(int_of(a), int_of(b))),
        Operator::Minus => in_range(words::minus(int_of(a), int_of(b))),
        Operator::Times => in_range(words::times(int_of(a), int_of(b))),
        Operator::Below => Ok(Value::Bool(int_of(a) < int_of(b))),
        Operator::AtMost => Ok(Value::Bool(int_of(a) <= int_of(b))),
        Operator::Equal => Ok(Value::Bool(are_same(a, b))),
        Operator::Unequal => Ok(Value::Bool(!are_same(a, b))),
        Operator::AtLeast => Ok(Value::Bool(int_of(b) <= int_of(a))),
        Operator::Above => Ok(Value::Bool(int_of(b) < int_of(a))),
        Operator::And => Ok(Value::Bool(bool_of(a) & bool_of(b))),
        Operator::Or => Ok(Value::Bool(bool_of(a) | bool_of(b))),
        Operator::Unknown => Err(8),
    }
}
