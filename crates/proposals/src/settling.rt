// The one judge of a proposal: 6, 16, 17, 18, 19.
ghost use Rattle.std.specs.Prelude.{◌≡◌, ◌≤◌, ◌+◌, ◌*◌, length, drop, Ok};
ghost use Rattle.tables.specs.Sizes.{locations};
ghost use Rattle.tables.specs.Lending.{seen, cells_moved, StillMoved};
ghost use Rattle.rules.specs.Constraints.{counted};
ghost use Rattle.rules.specs.Proposals.{entries, proposal, may_take, is_target, entries_fit};
ghost use Rattle.rules.specs.Proposals.{settle as settle_by};
ghost use Rattle.expressions.specs.Judging.{weighed_of, own_in};
ghost use Rattle.proposals.specs.Told.{answers, entries_in, asks_of, formed_of, tried, judged, Settles};
ghost use Rattle.proposals.specs.Undoing.{Applies};

use super::undoing::{put_back, put_payload};
use crate::{Asked, FEW_PAIRS, SAVED_WORDS};
use expressions::Weighed;
use expressions::constraints::counted_at;
use program::Refusal;
use tables::{Moving, View};

// n pairs, whose locations rise.
fn are_pairs(pairs: &[i32], n: usize) -> bool
    requires { n ≤ locations }
    ensures { result ≡ answers (entries n 0 pairs.now) }
{
    let mut low: usize = 0;
    for i in 0..n {
        let q = words::part_from(pairs, 2 * i);
        if q.len() < 2 {
            return false;
        }
        let l = words::number_at(q, 0);
        if l < low {
            return false;
        }
        if tables::LOCATIONS <= l {
            return false;
        }
        low = l + 1;
    }
    true
}

// How many pairs the proposal has that the words begin with; or a refusal's number.
pub fn form_of(proposals: &[i32]) -> Result<usize, usize>
    ensures { result ≡ formed_of (proposal proposals.now) }
{
    if proposals.len() == 0 {
        return Err(6);
    }
    let n = words::number_at(proposals, 0);
    if tables::LOCATIONS < n {
        return Err(16);
    }
    if !are_pairs(words::part_from(proposals, 1), n) {
        return Err(16);
    }
    Ok(n)
}

// A payload that the cell may take by a proposal.
fn may_take(c: tables::Cell, w: i32) -> bool
    ensures { result ≡ may_take c w }
{
    if w == c.payload {
        return false;
    }
    let kind = words::number(c.kind);
    if kind == 2 {
        return (w == 0) | (w == 1);
    }
    kind == 3
}

// The cell at l is the one that may not be changed.
fn is_target(target: Option<usize>, l: usize) -> bool
    ensures { result ≡ is_target target l }
{
    match target {
        Some(x) => l == x,
        None => false,
    }
}

// Every one of n pairs names a cell and a payload that it may.
fn entries_fit(t: &View<'_>, pairs: &[i32], n: usize, target: Option<usize>) -> bool
    requires { n ≤ locations }
    ensures { result ≡ entries_fit (seen t.now) target (entries_in pairs.now n) }
{
    for i in 0..n {
        let l = words::number_at(pairs, 2 * i);
        if is_target(target, l) {
            return false;
        }
        if !may_take(t.cell(l), words::word_at(pairs, 2 * i + 1)) {
            return false;
        }
    }
    true
}

// The cells of n pairs take their payloads and keep their kinds; the payloads that were there are laid by.
fn apply(t: &mut Moving<'_>, pairs: &[i32], n: usize, saved: &mut [i32])
    requires n_le_locations { n ≤ locations }
    requires n_in_bounds { n ≤ length saved.old }
    ensures applies { Applies (cells_moved t.old) (cells_moved t.new) pairs.now saved.new n }
    ensures rest { StillMoved t.old t.new }
{
    for i in 0..n {
        let l = words::number_at(pairs, 2 * i);
        let old = put_payload(t, l, words::word_at(pairs, 2 * i + 1));
        words::store(saved, i, old);
    }
}

// The parts that count, once n pairs are applied: 15, 19. The tables are as they were where it refuses.
fn try_saving(
    program: &[i32],
    t: &mut Moving<'_>,
    proposals: &[i32],
    n: usize,
    p: &[i32],
    own: Option<&[i32]>,
    saved: &mut [i32],
) -> Result<usize, Refusal>
    requires n_le_locations { n ≤ locations }
    requires n_in_bounds { n ≤ length saved.old }
    ensures settles { Settles (cells_moved t.old) (cells_moved t.new) result (tried program.now t.old.constraints.now (own_in own.entry) p.now (cells_moved t.old) (entries_in (drop 1 proposals.now) n) (drop (1 + 2 * n) proposals.now)) }
    ensures rest { StillMoved t.old t.new }
{
    let pairs = words::part_from(proposals, 1);
    apply(t, pairs, n, saved);
    let v = t.view();
    match counted_at(program, &v, own) {
        Err(fault) => {
            put_back(t, pairs, n, saved);
            Err(fault)
        }
        Ok(parts) => {
            if !parts.required {
                put_back(t, pairs, n, saved);
                return Err(Refusal::at(19, p));
            }
            Ok(words::less(proposals.len(), 1 + 2 * n))
        }
    }
}

// As try_saving; the payloads of a few pairs are laid by in a few words.
fn try_pairs(
    program: &[i32],
    t: &mut Moving<'_>,
    proposals: &[i32],
    n: usize,
    p: &[i32],
    own: Option<&[i32]>,
) -> Result<usize, Refusal>
    requires { n ≤ locations }
    ensures settles { Settles (cells_moved t.old) (cells_moved t.new) result (tried program.now t.old.constraints.now (own_in own.entry) p.now (cells_moved t.old) (entries_in (drop 1 proposals.now) n) (drop (1 + 2 * n) proposals.now)) }
    ensures rest { StillMoved t.old t.new }
{
    if n <= FEW_PAIRS {
        let mut few = [0i32; FEW_PAIRS];
        return try_saving(program, t, proposals, n, p, own, &mut few);
    }
    let mut saved = [0i32; SAVED_WORDS];
    try_saving(program, t, proposals, n, p, own, &mut saved)
}

// A proposal of n pairs, where the parts that count come to this.
fn judge(
    program: &[i32],
    t: &mut Moving<'_>,
    proposals: &[i32],
    n: usize,
    p: &[i32],
    asked: Asked<'_>,
    parts: Weighed,
) -> Result<usize, Refusal>
    requires n_le_locations { n ≤ locations }
    requires heap_value { weighed_of (counted program.now t.old.constraints.now (own_in asked.own) (cells_moved t.old)) ≡ Ok parts }
    ensures settles { Settles (cells_moved t.old) (cells_moved t.new) result (judged program.now t.old.constraints.now (asks_of asked.entry) p.now (cells_moved t.old) parts.all (entries_in (drop 1 proposals.now) n) (drop (1 + 2 * n) proposals.now)) }
    ensures rest { StillMoved t.old t.new }
{
    if n == 0 {
        if !parts.required {
            return Err(Refusal::at(19, p));
        }
        return Ok(words::less(proposals.len(), 1));
    }
    let v = t.view();
    if !entries_fit(&v, words::part_from(proposals, 1), n, asked.target) {
        return Err(Refusal::at(17, p));
    }
    if parts.all {
        return Err(Refusal::at(18, p));
    }
    try_pairs(program, t, proposals, n, p, asked.own)
}

// The tables take the proposal that the words begin with, or stay as they are; the answer is how many words are unread
// after it. The statement is at p.
pub fn settle(
    program: &[i32],
    t: &mut Moving<'_>,
    proposals: &[i32],
    p: &[i32],
    asked: Asked<'_>,
) -> Result<usize, Refusal>
    ensures settles { Settles (cells_moved t.old) (cells_moved t.new) result (settle_by program.now t.old.constraints.now (asks_of asked.entry) p.now (cells_moved t.old) proposals.now) }
    ensures rest { StillMoved t.old t.new }
{
    let v = t.view();
    let parts = counted_at(program, &v, asked.own)?;
    if !asked.room {
        return Err(Refusal::at(14, p));
    }
    match form_of(proposals) {
        Err(number) => Err(Refusal::at(number, p)),
        Ok(n) => judge(program, t, proposals, n, p, asked, parts),
    }
}
