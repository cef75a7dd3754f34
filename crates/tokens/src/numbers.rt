// What a number says.
ghost use Rattle.std.specs.Prelude.{◌≡◌, pos, neg_ℤ};
ghost use Rattle.words.specs.Range.{ranged};
ghost use Rattle.tokens.specs.Bytes.{part};
ghost use Rattle.tokens.specs.Numbers.{digit_of, digits_from, capped, IsCounted, value_of};

use words::{part_from, part_to};

// The greatest number that a word is without its sign.
const GREATEST: usize = 2147483648;

// The digit that a byte is; 0 where it is none.
#[tactic(auto, unfolding(crate::specs::Numbers::digit_of))]
fn digit(b: u8) -> usize
    ensures { result ≡ digit_of b }
{
    match b {
        b'0'..=b'9' => (b - b'0') as usize,
        _ => 0,
    }
}

// The number of a row of digits, none where it passes GREATEST.
#[tactic(auto, using(crate::proofs::NumberLaws::counting))]
fn digits(s: &[u8]) -> Option<usize>
    ensures { IsCounted (capped (digits_from 0 s.now)) result }
{
    let mut n: usize = 0;
    for b in s {
        n = 10 * n + digit(*b);
        if GREATEST < n {
            return None;
        }
    }
    Some(n)
}

#[tactic(auto, using(crate::proofs::NumberLaws::ranging))]
fn positive(n: usize) -> Option<i32>
    ensures { result ≡ ranged (pos n) }
{
    i32::try_from(n).ok()
}

#[tactic(auto, using(crate::proofs::NumberLaws::ranging))]
fn negative(n: usize) -> Option<i32>
    ensures { result ≡ ranged (neg_ℤ (pos n)) }
{
    let n = i64::try_from(n).ok()?;
    i32::try_from(-n).ok()
}

// The number whose bytes begin at place and are over at end, if it fits 32 bits.
#[tactic(auto, using(crate::proofs::NumberLaws::value_read))]
pub fn value(text: &[u8], place: usize, end: usize) -> Option<i32>
    ensures { result ≡ value_of (part text.now place end) }
{
    let s = part_to(part_from(text, place), end.saturating_sub(place));
    match s.strip_prefix(b"-") {
        Some(rest) => negative(digits(rest)?),
        None => positive(digits(s)?),
    }
}
