// Decimal numbers, read and written.
ghost use Rattle.std.specs.Prelude.{◌≡◌, ◌<◌, ◌+◌, MatchOption};
ghost use Rattle.lister.specs.Bytes.{Puts};
ghost use Rattle.lister.specs.Numerals.{digit_of, value_from, natural_in, IsRead, positive_of, negative_of, numeral_in, digits_by, digits, numeral};

use super::bytes::put;

// The greatest number that a word is without its sign.
const GREATEST: usize = 2147483648;

// The digit that a byte is.
#[tactic(auto, unfolding(crate::specs::Numerals::digit_of))]
fn digit(b: u8) -> Option<usize>
    ensures { MatchOption result (digit_of b ≡ 10) (λ d. (digit_of b ≡ d) × (d < 10)) }
{
    match b {
        b'0'..=b'9' => Some((b - b'0') as usize),
        _ => None,
    }
}

// The number of a row of digits, none where a byte is no digit or where it would pass GREATEST.
#[tactic(auto, using(crate::proofs::NumeralLaws::valuing))]
fn value(s: &[u8]) -> Option<usize>
    ensures { IsRead (value_from 0 s.now) result }
{
    let mut n: usize = 0;
    for b in s {
        n = 10 * n + digit(*b)?;
        if GREATEST < n {
            return None;
        }
    }
    Some(n)
}

// The number of a text of digits without leading zeros.
#[tactic(auto, using(crate::proofs::NumeralLaws::naturals))]
fn natural(s: &[u8]) -> Option<usize>
    ensures { IsRead (natural_in s.now) result }
{
    match s {
        [] | [b'0', _, ..] => None,
        _ => value(s),
    }
}

#[tactic(auto, unfolding(crate::specs::Numerals::positive_of))]
fn positive(n: usize) -> Option<i32>
    ensures { result ≡ positive_of n }
{
    i32::try_from(n).ok()
}

// The number after a minus sign.
#[tactic(auto, unfolding(crate::specs::Numerals::negative_of))]
fn negative(n: usize) -> Option<i32>
    ensures { result ≡ negative_of n }
{
    if n == 0 {
        return None;
    }
    let n = i64::try_from(n).ok()?;
    i32::try_from(-n).ok()
}

// A 32-bit number in decimal, without plus sign, leading zeros or -0.
#[tactic(auto, using(crate::proofs::NumeralLaws::numbers))]
pub fn number(s: &[u8]) -> Option<i32>
    ensures { result ≡ numeral_in s.now }
{
    match s.strip_prefix(b"-") {
        Some(rest) => negative(natural(rest)?),
        None => positive(natural(s)?),
    }
}

// The byte of a digit.
fn digit_byte(d: usize) -> u8
    requires { d < 10 }
    ensures { result ≡ 48 + d }
{
    b'0' + (d as u8)
}

// The digits of n, at most as many as `places` allows.
#[tactic(auto, using(crate::proofs::BufferLaws::puts_none), unfolding(crate::specs::Numerals::digits_by))]
fn put_digits(out: &mut [u8], at: usize, n: usize, places: usize) -> usize
    ensures { Puts out.old at (digits_by places n) out.new result }
{
    if places == 0 {
        return at;
    }
    if n < 10 {
        return put(out, at, digit_byte(n));
    }
    let to = put_digits(out, at, n / 10, places - 1);
    put(out, to, digit_byte(n % 10))
}

// A number in decimal.
#[tactic(auto, unfolding(crate::specs::Numerals::digits))]
pub fn put_natural(out: &mut [u8], at: usize, n: usize) -> usize
    ensures { Puts out.old at (digits n) out.new result }
{
    put_digits(out, at, n, 20)
}

// A word in decimal.
pub fn put_number(out: &mut [u8], at: usize, w: i32) -> usize
    ensures { Puts out.old at (numeral w) out.new result }
{
    let n = w.unsigned_abs() as usize;
    if w < 0 {
        let to = put(out, at, b'-');
        return put_natural(out, to, n);
    }
    put_natural(out, at, n)
}
