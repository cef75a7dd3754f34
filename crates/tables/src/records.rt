// The heap's records: counts, labels, cells, a record more and a record less.
ghost use Rattle.std.specs.Prelude.{◌≡◌};
ghost use Rattle.tables.specs.Records.{record_count, count_at, field_count, label_at, field_at, blank_place, blank_from, field_with, with_record, without_record, laid_by, brought_back};

use super::cells::{are_zeros, is_clear, pair_at};
use crate::{ABSENT, Cell, FIELDS, RECORD_WORDS, RECORDS, VARIABLES};

// The count word as a number.
pub fn record_count(heap: &[i32]) -> usize
    ensures { result ≡ record_count heap.now }
{
    words::number_at(heap, 0)
}

// The field count of record r as it is written.
#[tactic(auto, unfolding(crate::specs::Records::count_at, crate::specs::Sizes::count_word))]
pub fn count_at(heap: &[i32], r: usize) -> usize
    ensures { result ≡ count_at heap.now r }
{
    if RECORDS <= r {
        return 2147483648;
    }
    words::number_at(heap, 25 * r + 1)
}

// How many fields record r has; none where its count is out of range.
#[tactic(auto, unfolding(crate::specs::Records::field_count))]
pub fn field_count(heap: &[i32], r: usize) -> usize
    ensures { result ≡ field_count heap.now r }
{
    let n = count_at(heap, r);
    if FIELDS < n {
        return 0;
    }
    n
}

// The label of field place f of record r.
#[tactic(auto, unfolding(crate::specs::Records::label_at, crate::specs::Sizes::label_word))]
pub fn label_at(heap: &[i32], r: usize, f: usize) -> usize
    ensures { result ≡ label_at heap.now r f }
{
    if r < RECORDS && f < FIELDS {
        words::number_at(heap, 25 * r + 3 * f + 2)
    } else {
        2147483648
    }
}

// The cell of field place f of record r; absent where there is no such place.
#[tactic(auto, unfolding(crate::specs::Records::field_at, crate::specs::Sizes::field_word))]
pub fn field_at(heap: &[i32], r: usize, f: usize) -> Cell
    ensures { result ≡ field_at heap.now r f }
{
    if r < RECORDS && f < FIELDS {
        pair_at(heap, 25 * r + 3 * f + 3)
    } else {
        ABSENT
    }
}

// Whether the label and the cell of field place f of record r are all zero.
#[tactic(auto, unfolding(crate::specs::Records::blank_place, crate::specs::Sizes::label_word))]
pub fn is_blank(heap: &[i32], r: usize, f: usize) -> bool
    ensures { result ≡ blank_place heap.now r f }
{
    if r < RECORDS && f < FIELDS {
        are_zeros(heap, 25 * r + 3 * f + 2, 3)
    } else {
        true
    }
}

// Whether every record from number n on is all zero.
pub fn are_blank_from(heap: &[i32], n: usize) -> bool
    ensures { result ≡ blank_from heap.now n }
{
    if RECORDS <= n {
        return true;
    }
    is_clear(words::part_to(words::part_from(heap, 25 * n + 1), 1600 - 25 * n))
}

// The location of the field of record r that has the label.
pub fn find_field(heap: &[i32], r: usize, label: usize) -> Option<usize>
    ensures { result ≡ field_with heap.now r label }
{
    let n = field_count(heap, r);
    let f = (0..n).position(|f| label_at(heap, r, f) == label)?;
    Some(VARIABLES + 8 * r + f)
}

// A record more: n fields, each its label, kind and payload. Nothing is written where the heap is full.
#[tactic(auto, unfolding(crate::specs::Records::with_record, crate::specs::Sizes::count_word))]
pub fn add_record(heap: &mut [i32], fields: &[i32], n: usize)
    ensures { heap.new ≡ with_record heap.old fields.now n }
{
    let r = record_count(heap);
    if RECORDS <= r {
        return;
    }
    if FIELDS < n {
        return;
    }
    let at = 25 * r + 1;
    words::copy(heap, at + 1, fields, 3 * n);
    words::store(heap, at, words::word_of(n));
    words::store(heap, 0, words::word_of(r + 1));
}

// The last record is taken away, and its words are zero again.
#[tactic(auto, unfolding(crate::specs::Records::without_record, crate::specs::Sizes::count_word))]
pub fn drop_record(heap: &mut [i32])
    ensures { heap.new ≡ without_record heap.old }
{
    let n = record_count(heap);
    if n == 0 {
        return;
    }
    if RECORDS < n {
        return;
    }
    words::clear(heap, 25 * (n - 1) + 1, RECORD_WORDS);
    words::store(heap, 0, words::word_of(n - 1));
}

// The words that a record more may change are laid by: the count word, and those of the first record that is not used.
#[tactic(auto, unfolding(crate::specs::Records::laid_by, crate::specs::Sizes::count_word))]
pub fn lay_by(heap: &[i32], saved: &mut [i32])
    ensures { saved.new ≡ laid_by heap.now saved.old }
{
    words::store(saved, 0, words::word_at(heap, 0));
    let r = record_count(heap);
    if RECORDS <= r {
        return;
    }
    words::copy(saved, 1, words::part_from(heap, 25 * r + 1), RECORD_WORDS);
}

// The words that were laid by are put back.
#[tactic(auto, unfolding(crate::specs::Records::brought_back, crate::specs::Sizes::count_word))]
pub fn bring_back(heap: &mut [i32], saved: &[i32])
    ensures { heap.new ≡ brought_back saved.now heap.old }
{
    words::store(heap, 0, words::word_at(saved, 0));
    let r = words::number_at(saved, 0);
    if RECORDS <= r {
        return;
    }
    words::copy(heap, 25 * r + 1, words::part_from(saved, 1), RECORD_WORDS);
}
