// Classes, runs and parts of bytes.
ghost use Rattle.std.specs.Prelude.{◌≡◌, get_or};
ghost use Rattle.tokens.specs.Bytes.{is_white, is_named, is_of, run, trimmed, spelt, same_in};

use crate::Class;
use words::{part_from, part_to};

// The byte at i, 0 past the end.
pub fn byte(s: &[u8], i: usize) -> u8
    ensures { result ≡ get_or s.now i 0 }
{
    s.get(i).copied().unwrap_or(0)
}

#[tactic(auto, unfolding(crate::specs::Bytes::is_white))]
fn is_white(b: u8) -> bool
    ensures { result ≡ is_white b }
{
    matches!(b, b' ' | b'\t' | b'\n' | b'\r')
}

// Letters, digits and `_`.
#[tactic(auto, unfolding(crate::specs::Bytes::is_named, crate::specs::Bytes::between))]
fn is_named(b: u8) -> bool
    ensures { result ≡ is_named b }
{
    b.is_ascii_alphanumeric() || b == b'_'
}

#[tactic(auto, unfolding(crate::specs::Bytes::between))]
pub fn is_of(class: Class, b: u8) -> bool
    ensures { result ≡ is_of class b }
{
    match class {
        Class::White => is_white(b),
        Class::Lower => b.is_ascii_lowercase(),
        Class::Named => is_named(b),
        Class::Digit => b.is_ascii_digit(),
    }
}

// How many bytes at the front are of a class.
pub fn run(s: &[u8], class: Class) -> usize
    ensures { result ≡ run (is_of class) s.now }
{
    s.iter().position(|b| !is_of(class, *b)).unwrap_or(s.len())
}

// The bytes behind white space.
#[tactic(auto, unfolding(crate::specs::Bytes::trimmed))]
pub fn behind_white(s: &[u8]) -> &[u8]
    ensures { result.now ≡ trimmed s.now }
{
    part_from(s, run(s, Class::White))
}

// The bytes are those of the word.
pub fn spells(s: &[u8], word: &[u8]) -> bool
    ensures { result ≡ spelt word.now s.now }
{
    if s.len() != word.len() {
        return false;
    }
    for i in 0..word.len() {
        if s[i] != word[i] {
            return false;
        }
    }
    true
}

// The n bytes from a on and the n bytes from b on are there and the same.
#[tactic(auto, unfolding(crate::specs::Bytes::same_in))]
pub fn same(text: &[u8], a: usize, b: usize, n: usize) -> bool
    ensures { result ≡ same_in text.now a b n }
{
    let first = part_to(part_from(text, a), n);
    n <= first.len() && spells(part_to(part_from(text, b), n), first)
}
