// Paths, expressions and constraints. Each is read from the part of the program that begins at its first word.
// A reader answers how many words are left after its piece, or, as an Err, from the first unfit word on.
ghost use Rattle.std.specs.Prelude.{◌≡◌};
ghost use Rattle.words.specs.Answer.{stop};
ghost use Rattle.program.specs.Told.{told, words_left};
ghost use Rattle.program.specs.Reading.{any_word, read_labels, read_path, read_paths, read_expression, read_part, read_parts, read_constraint};

use crate::{EXPRESSION_DEPTH, MOST_PARTS, MOST_STEPS, OPERATORS, REQUIRED};

// The part begins with an unfit word.
pub fn unfit(p: &[i32]) -> Result<usize, usize>
    ensures { result ≡ told (stop p.now) }
{
    Err(p.len())
}

// How many words are left after a piece, or from its first unfit word on.
pub fn words_left(piece: Result<usize, usize>) -> usize
    ensures { result ≡ words_left piece }
{
    match piece {
        Ok(left) | Err(left) => left,
    }
}

#[tactic(auto, unfolding(crate::specs::Reading::any_word))]
fn read_word(p: &[i32]) -> Result<usize, usize>
    ensures { result ≡ told (any_word p.now) }
{
    if p.len() == 0 {
        return unfit(p);
    }
    Ok(p.len() - 1)
}

fn read_labels(p: &[i32], n: usize) -> Result<usize, usize>
    ensures { result ≡ told (read_labels n p.now) }
{
    for i in 0..n {
        if tables::LABELS <= words::number_at(p, i) {
            return unfit(words::part_from(p, i));
        }
    }
    Ok(words::less(p.len(), n))
}

// L: variable, n, n labels.
#[tactic(auto, unfolding(crate::specs::Reading::read_path, crate::specs::Reading::number))]
pub fn read_path(p: &[i32]) -> Result<usize, usize>
    ensures { result ≡ told (read_path p.now) }
{
    if tables::VARIABLES <= words::number_at(p, 0) {
        return unfit(p);
    }
    let q = words::part_from(p, 1);
    let n = words::number_at(q, 0);
    if MOST_STEPS < n {
        return unfit(q);
    }
    read_labels(words::part_from(q, 1), n)
}

// The two paths of L == L.
#[tactic(auto, unfolding(crate::specs::Reading::read_paths))]
pub fn read_paths(p: &[i32]) -> Result<usize, usize>
    ensures { result ≡ told (read_paths p.now) }
{
    let left = read_path(p)?;
    read_path(words::part_last(p, left))
}

// e, nested at most d deep; in_c: inside C.
#[tactic(auto, using(crate::proofs::ReadLaws::halted), unfolding(crate::specs::Reading::read_expression, crate::specs::Reading::read_form, crate::specs::Reading::number, crate::specs::Forms::form_of))]
pub fn read_expression(p: &[i32], d: usize, in_c: bool) -> Result<usize, usize>
    ensures { result ≡ told (read_expression d in_c p.now) }
{
    if d == 0 {
        return unfit(p);
    }
    let form = words::number_at(p, 0);
    let q = words::part_from(p, 1);
    match form {
        20 => Ok(q.len()),
        21 => Ok(q.len()),
        22 => Ok(q.len()),
        23 => read_word(q),
        24 => read_path(q),
        25 => {
            let o = words::number_at(q, 0);
            if o == 0 {
                return unfit(q);
            }
            if OPERATORS < o {
                return unfit(q);
            }
            let r = words::part_from(q, 1);
            let left = read_expression(r, d - 1, in_c)?;
            read_expression(words::part_last(r, left), d - 1, in_c)
        }
        26 => {
            if in_c {
                return unfit(p);
            }
            read_paths(q)
        }
        _ => unfit(p),
    }
}

// A part of C: priority and e.
#[tactic(auto, unfolding(crate::specs::Reading::read_part, crate::specs::Reading::number))]
pub fn read_part(p: &[i32]) -> Result<usize, usize>
    ensures { result ≡ told (read_part p.now) }
{
    let priority = words::number_at(p, 0);
    if priority == 0 {
        return unfit(p);
    }
    if REQUIRED < priority {
        return unfit(p);
    }
    read_expression(words::part_from(p, 1), EXPRESSION_DEPTH, true)
}

fn read_parts(p: &[i32], m: usize) -> Result<usize, usize>
    ensures { result ≡ told (read_parts m p.now) }
{
    let mut left = p.len();
    for _ in 0..m {
        left = read_part(words::part_last(p, left))?;
    }
    Ok(left)
}

// C: m, m parts.
#[tactic(auto, unfolding(crate::specs::Reading::read_constraint, crate::specs::Reading::number))]
pub fn read_constraint(p: &[i32]) -> Result<usize, usize>
    ensures { result ≡ told (read_constraint p.now) }
{
    let m = words::number_at(p, 0);
    if m == 0 {
        return unfit(p);
    }
    if MOST_PARTS < m {
        return unfit(p);
    }
    read_parts(words::part_from(p, 1), m)
}
