// Statements that hold blocks, and the block: each calls the other, and the nesting left falls. A statement that holds no block is `lent::step`'s.
#![tactic(auto)]

ghost use Rattle.std.specs.Prelude.{[]};
ghost use Rattle.program.specs.Reading.{read_block, after};
ghost use Rattle.program.specs.declared.Verb.TheVariants.{If as branch, While as loop};
ghost use Rattle.rules.specs.Running.{do_verb, do_statement, do_block};
ghost use Rattle.tables.specs.Lending.{StillLent};
ghost use Rattle.phases.specs.Told.{state_in};
ghost use Rattle.lent.specs.Tallied.{carries, Runs, Begins, Goes};

use expressions::testing::test_at;
use lent::Tally;
use lent::counting::{ended, pay};
use lent::stepping::holds_blocks;
use program::Verb;
use program::reading::{read_expression, words_left};
use tables::Tables;

// The statement at p, whose own blocks nest at most d deep. One that holds blocks pays its step here (5).
#[cycle(run_block_run_if_run_statement_run_while)]
fn run_statement(
    program: &[i32],
    t: &mut Tables<'_>,
    proposals: &[i32],
    budget: usize,
    p: &[i32],
    d: usize,
    tally: Tally,
) -> Tally
    requires { Begins proposals.now tally }
    ensures goes { Goes proposals.now tally (state_in t.new) result (do_statement (λ q u. do_block d program.now budget q u) (λ q. after (read_block d q)) program.now budget p.now (carries proposals.now (state_in t.old) tally)) }
    ensures lent { StillLent t.old t.new }
{
    let verb = Verb::from(words::number_at(p, 0));
    if !holds_blocks(verb) {
        return lent::stepped_on(program, t, proposals, budget, p, tally);
    }
    let u = pay(tally, budget, words::less(program.len(), p.len()));
    if u.outcome != 0 {
        return u;
    }
    match verb {
        Verb::If => run_if(program, t, proposals, budget, p, d, u),
        _ => run_while(program, t, proposals, budget, p, d, u),
    }
}

// The if at p, whose step is paid. A test that is refused ends the run at the word at fault.
#[cycle(run_block_run_if_run_statement_run_while)]
fn run_if(
    program: &[i32],
    t: &mut Tables<'_>,
    proposals: &[i32],
    budget: usize,
    p: &[i32],
    d: usize,
    tally: Tally,
) -> Tally
    requires { Begins proposals.now tally }
    ensures goes { Goes proposals.now tally (state_in t.new) result (do_verb (λ q u. do_block d program.now budget q u) (λ q. after (read_block d q)) program.now budget p.now branch (carries proposals.now (state_in t.old) tally)) }
    ensures lent { StillLent t.old t.new }
{
    let q = words::part_from(p, 1);
    let left = words_left(read_expression(q, program::EXPRESSION_DEPTH, false));
    let first = words::part_last(q, left);
    let seen = t.view();
    match test_at(&seen, q) {
        Err(fault) => ended(tally, fault.number, words::less(program.len(), fault.word)),
        Ok(b) => {
            if b {
                return run_block(program, t, proposals, budget, first, d, tally);
            }
            let skipped = words_left(program::blocks::read_block(first, d));
            let second = words::part_last(first, skipped);
            run_block(program, t, proposals, budget, second, d, tally)
        }
    }
}

// The while at p, whose first test is paid. A test that is refused ends the run at the word at fault, one that is not paid at the while's word (5).
#[cycle(run_block_run_if_run_statement_run_while)]
fn run_while(
    program: &[i32],
    t: &mut Tables<'_>,
    proposals: &[i32],
    budget: usize,
    p: &[i32],
    d: usize,
    tally: Tally,
) -> Tally
    requires { Begins proposals.now tally }
    ensures goes { Goes proposals.now tally (state_in t.new) result (do_verb (λ q u. do_block d program.now budget q u) (λ q. after (read_block d q)) program.now budget p.now loop (carries proposals.now (state_in t.old) tally)) }
    ensures lent { StillLent t.old t.new }
{
    let q = words::part_from(p, 1);
    let left = words_left(read_expression(q, program::EXPRESSION_DEPTH, false));
    let body = words::part_last(q, left);
    let while_place = words::less(program.len(), p.len());
    let mut u = tally;
    'turns: loop {
        let seen = t.view();
        match test_at(&seen, q) {
            Err(fault) => {
                return ended(u, fault.number, words::less(program.len(), fault.word));
            }
            Ok(b) => {
                if !b {
                    return u;
                }
            }
        }
        let w = run_block(program, t, proposals, budget, body, d, u);
        if w.outcome != 0 {
            return w;
        }
        u = pay(w, budget, while_place);
        if u.outcome != 0 {
            return u;
        }
    }
}

// The block at p, nested at most d deep. Where its last statement ends is not read.
#[cycle(run_block_run_if_run_statement_run_while)]
fn run_block(
    program: &[i32],
    t: &mut Tables<'_>,
    proposals: &[i32],
    budget: usize,
    p: &[i32],
    d: usize,
    tally: Tally,
) -> Tally
    requires { Begins proposals.now tally }
    ensures goes { Goes proposals.now tally (state_in t.new) result (do_block d program.now budget p.now (carries proposals.now (state_in t.old) tally)) }
    ensures lent { StillLent t.old t.new }
{
    if d == 0 {
        return ended(tally, 2, words::less(program.len(), p.len()));
    }
    let n = words::number_at(p, 0);
    if program::MOST_STATEMENTS < n {
        return ended(tally, 2, words::less(program.len(), p.len()));
    }
    let mut u = tally;
    let mut left = words::less(p.len(), 1);
    for i in 0..n {
        let q = words::part_last(p, left);
        let w = run_statement(program, t, proposals, budget, q, d - 1, u);
        if w.outcome != 0 {
            return w;
        }
        u = w;
        if n <= i + 1 {
            return u;
        }
        left = words_left(program::blocks::read_statement(q, d - 1));
    }
    u
}

// The program's block, from a tally of nothing.
pub fn run_all(program: &[i32], t: &mut Tables<'_>, proposals: &[i32], budget: usize) -> Tally
    ensures runs { Runs proposals.now (state_in t.new) result (do_block 8 program.now budget program.now (record { state = state_in t.old; unread = proposals.now; steps = 0; accepted = 0; tests = [] })) }
    ensures lent { StillLent t.old t.new }
{
    let tally = Tally {
        steps: 0,
        accepted: 0,
        unread: proposals.len(),
        outcome: 0,
        place: 0,
    };
    run_block(
        program,
        t,
        proposals,
        budget,
        program,
        program::BLOCK_DEPTH,
        tally,
    )
}
