// Paths, expressions and constraints over lent tables: each answer is four words, stored at the start of a lent slice.
ghost use Rattle.std.specs.Prelude.{◌≡◌};
ghost use Rattle.tables.specs.Cells.{cells};
ghost use Rattle.tables.specs.declared.Sort.TheVariants.{Values};
ghost use Rattle.program.specs.Forms.{expression_depth};
ghost use Rattle.rules.specs.State.{positions};
ghost use Rattle.rules.specs.Paths.{way_at};
ghost use Rattle.rules.specs.Evaluation.{evaluate};
ghost use Rattle.rules.specs.Constraints.{constraint_at, kept_parts};
ghost use Rattle.rules.specs.Running.{test};
ghost use Rattle.expressions.specs.Told.{named_of, evaluated_of};
ghost use Rattle.expressions.specs.Judging.{tested_of, weighed_of};
ghost use Rattle.compared.specs.Answers.{four, stored, refusal, bit_of, named_words, evaluated_words, tested_words, weighed_words};

use expressions::Weighed;
use program::Refusal;
use tables::View;

// Stores the four words of an answer.
fn tell(answer: &mut [i32], a: i32, b: i32, c: i32, d: i32)
    ensures { answer.new ≡ stored answer.old (four a b c d) }
{
    words::store(answer, 0, a);
    words::store(answer, 1, b);
    words::store(answer, 2, c);
    words::store(answer, 3, d);
}

// Stores a refusal: its number, and its word.
fn refuse(answer: &mut [i32], fault: Refusal)
    ensures { answer.new ≡ stored answer.old (refusal fault) }
{
    tell(
        answer,
        words::word_of(fault.number),
        words::word_of(fault.word),
        0,
        0,
    );
}

fn bit(b: bool) -> i32
    ensures { result ≡ bit_of b }
{
    if b { 1 } else { 0 }
}

// Stores how constraints come out.
fn tell_weighed(answer: &mut [i32], w: Result<Weighed, Refusal>)
    ensures { answer.new ≡ stored answer.old (weighed_words w) }
{
    match w {
        Ok(x) => tell(answer, 0, bit(x.all), bit(x.required), 0),
        Err(fault) => refuse(answer, fault),
    }
}

// The cell that the L at p names, and the words left after it.
#[unsafe(no_mangle)]
pub extern "C" fn compared_path(environment: &[i32], heap: &[i32], p: &[i32], answer: &mut [i32])
    ensures { answer.new ≡ stored answer.old (named_words (named_of (way_at (cells environment.now heap.now) p.now))) }
{
    let t = View {
        environment,
        heap,
        constraints: &[],
    };
    match expressions::paths::cell_at(&t, p) {
        Ok(x) => tell(answer, 0, words::word_of(x.cell), words::word_of(x.left), 0),
        Err(fault) => refuse(answer, fault),
    }
}

// The value of the expression at p by its kind and payload, and the words left after it.
#[unsafe(no_mangle)]
pub extern "C" fn compared_expression(
    environment: &[i32],
    heap: &[i32],
    p: &[i32],
    answer: &mut [i32],
)
    ensures { answer.new ≡ stored answer.old (evaluated_words (evaluated_of (evaluate expression_depth (cells environment.now heap.now) p.now))) }
{
    let t = View {
        environment,
        heap,
        constraints: &[],
    };
    match expressions::values::find_value(&t, p) {
        Ok(x) => {
            let cell = tables::cells::cell_of(x.value);
            tell(answer, 0, cell.kind, cell.payload, words::word_of(x.left))
        }
        Err(fault) => refuse(answer, fault),
    }
}

// The test of an if or while at p.
#[unsafe(no_mangle)]
pub extern "C" fn compared_test(environment: &[i32], heap: &[i32], p: &[i32], answer: &mut [i32])
    ensures { answer.new ≡ stored answer.old (tested_words (tested_of (test (cells environment.now heap.now) p.now))) }
{
    let t = View {
        environment,
        heap,
        constraints: &[],
    };
    match expressions::testing::test_at(&t, p) {
        Ok(b) => tell(answer, 0, bit(b), 0, 0),
        Err(fault) => refuse(answer, fault),
    }
}

// The C at p: whether all its parts, and whether all required ones, are satisfied.
#[unsafe(no_mangle)]
pub extern "C" fn compared_parts(environment: &[i32], heap: &[i32], p: &[i32], answer: &mut [i32])
    ensures { answer.new ≡ stored answer.old (weighed_words (weighed_of (constraint_at (cells environment.now heap.now) p.now))) }
{
    let t = View {
        environment,
        heap,
        constraints: &[],
    };
    tell_weighed(answer, expressions::constraints::constraint_at(&t, p));
}

// The same for all kept value constraints of a program.
#[unsafe(no_mangle)]
pub extern "C" fn compared_kept(
    program: &[i32],
    environment: &[i32],
    heap: &[i32],
    constraints: &[i32],
    answer: &mut [i32],
)
    ensures { answer.new ≡ stored answer.old (weighed_words (weighed_of (kept_parts program.now (cells environment.now heap.now) (positions constraints.now Values)))) }
{
    let t = View {
        environment,
        heap,
        constraints,
    };
    tell_weighed(answer, expressions::constraints::kept_at(program, &t));
}
