// The kept positions of both sorts.
ghost use Rattle.std.specs.Prelude.{◌≡◌};
ghost use Rattle.tables.specs.Kept.{kept_word, most_kept, first_kept, kept_number, kept_count, position_at, blank_positions, is_kept, with_position, without_position};

use super::cells::is_clear;
use crate::{IDENTITY_POSITIONS, Sort, VALUE_POSITIONS};

// The word that counts the kept positions of a sort.
fn kept_word(s: Sort) -> usize
    ensures { result ≡ kept_word s }
{
    match s {
        Sort::Values => 0,
        Sort::Identities => 1,
    }
}

// The word of the first kept position of a sort.
fn first_kept(s: Sort) -> usize
    ensures { result ≡ first_kept s }
{
    match s {
        Sort::Values => 2,
        Sort::Identities => 66,
    }
}

// How many positions of a sort there is room for.
pub fn most_kept(s: Sort) -> usize
    ensures { result ≡ most_kept s }
{
    match s {
        Sort::Values => VALUE_POSITIONS,
        Sort::Identities => IDENTITY_POSITIONS,
    }
}

// The count of a sort as it is written.
pub fn count_at(constraints: &[i32], s: Sort) -> usize
    ensures { result ≡ kept_number constraints.now s }
{
    words::number_at(constraints, kept_word(s))
}

// How many positions of a sort are kept; none where the count is out of range.
#[tactic(auto, unfolding(crate::specs::Kept::kept_count))]
pub fn kept_count(constraints: &[i32], s: Sort) -> usize
    ensures { result ≡ kept_count constraints.now s }
{
    let n = count_at(constraints, s);
    if most_kept(s) < n {
        return 0;
    }
    n
}

// The kept position number i of a sort.
#[tactic(auto, unfolding(crate::specs::Kept::position_at))]
pub fn position_at(constraints: &[i32], s: Sort, i: usize) -> usize
    ensures { result ≡ position_at constraints.now s i }
{
    if most_kept(s) <= i {
        return 2147483648;
    }
    words::number_at(constraints, first_kept(s) + i)
}

// Whether the words for every position of a sort from number n on are zero.
pub fn are_blank_from(constraints: &[i32], s: Sort, n: usize) -> bool
    ensures { result ≡ blank_positions constraints.now s n }
{
    let most = most_kept(s);
    if most <= n {
        return true;
    }
    is_clear(words::part_to(words::part_from(constraints, first_kept(s) + n), most - n))
}

pub fn is_kept(constraints: &[i32], s: Sort, position: usize) -> bool
    ensures { result ≡ is_kept constraints.now s position }
{
    let n = kept_count(constraints, s);
    (0..n).any(|i| position_at(constraints, s, i) == position)
}

// A position more, after those of its sort. Nothing is written where there is no room.
#[tactic(auto, unfolding(crate::specs::Kept::with_position))]
pub fn keep(constraints: &mut [i32], s: Sort, position: usize)
    ensures { constraints.new ≡ with_position constraints.old s position }
{
    let n = kept_count(constraints, s);
    if most_kept(s) <= n {
        return;
    }
    words::store(constraints, first_kept(s) + n, words::word_of(position));
    words::store(constraints, kept_word(s), words::word_of(n + 1));
}

// The last position of a sort is taken away, and its word is zero again.
#[tactic(auto, unfolding(crate::specs::Kept::without_position))]
pub fn unkeep(constraints: &mut [i32], s: Sort)
    ensures { constraints.new ≡ without_position constraints.old s }
{
    let n = kept_count(constraints, s);
    if n == 0 {
        return;
    }
    words::store(constraints, first_kept(s) + (n - 1), 0);
    words::store(constraints, kept_word(s), words::word_of(n - 1));
}
