// The token that begins at a byte.
ghost use Rattle.std.specs.Prelude.{◌≡◌, get_or, drop};
ghost use Rattle.tokens.specs.Tokens.{name_length, name_at, single_at, mark_at, signs, token_at, token_from};

use super::bytes::{behind_white, byte, is_of, run};
use super::spelling::{keyword, pair, single};
use crate::{Class, Piece, Token};
use words::{part_from, part_to};

// How many bytes a name has, with its `?`.
#[tactic(auto, using(crate::proofs::TokenLaws::inside), unfolding(crate::specs::Tokens::name_length, crate::specs::Tokens::asked_from))]
fn name_length(s: &[u8]) -> usize
    ensures { result ≡ name_length s.now }
{
    let n = run(s, Class::Named);
    if byte(s, n) == b'?' { n + 1 } else { n }
}

// A name or a keyword.
#[tactic(auto, unfolding(crate::specs::Tokens::name_at))]
fn name(s: &[u8]) -> Piece
    ensures { result ≡ name_at s.now }
{
    let n = name_length(s);
    Piece {
        code: keyword(part_to(s, n)),
        length: n,
    }
}

#[tactic(auto, unfolding(crate::specs::Tokens::single_at))]
fn single_mark(b: u8) -> Piece
    ensures { result ≡ single_at b }
{
    Piece {
        code: single(b),
        length: 1,
    }
}

// A mark, the longest that fits.
#[tactic(auto, using(crate::proofs::TokenLaws::marks))]
fn mark(s: &[u8]) -> Piece
    ensures { result ≡ mark_at (get_or s.now 0 0) (drop 1 s.now) }
{
    let b = byte(s, 0);
    if s.len() < 2 {
        return single_mark(b);
    }
    let code = pair(b, s[1]);
    if code == crate::NO_TOKEN {
        return single_mark(b);
    }
    Piece { code, length: 2 }
}

// A `-` that belongs to a number.
#[tactic(auto, unfolding(crate::specs::Tokens::signs))]
fn is_signed(s: &[u8], due: bool) -> bool
    ensures { result ≡ signs due s.now }
{
    due && byte(s, 0) == b'-' && is_of(Class::Digit, byte(s, 1))
}

// The token that the bytes begin with.
#[tactic(auto, using(crate::proofs::TokenLaws::firsts))]
fn first(s: &[u8], due: bool) -> Piece
    ensures { result ≡ token_at due s.now }
{
    if s.is_empty() {
        return Piece {
            code: crate::END,
            length: 0,
        };
    }
    if is_of(Class::Lower, s[0]) {
        return name(s);
    }
    if is_of(Class::Digit, s[0]) {
        return Piece {
            code: crate::NUMBER,
            length: run(s, Class::Digit),
        };
    }
    if is_signed(s, due) {
        return Piece {
            code: crate::NUMBER,
            length: 1 + run(part_from(s, 1), Class::Digit),
        };
    }
    mark(s)
}

// The first token from a byte on. Where an operand is due, a `-` before a digit belongs to the number.
#[tactic(auto, using(crate::proofs::TokenRules::in_text), unfolding(crate::specs::Tokens::rest_from))]
pub fn token(text: &[u8], at: usize, due: bool) -> Token
    ensures { result ≡ token_from due text.now at }
{
    let rest = behind_white(part_from(text, at));
    let piece = first(rest, due);
    let place = text.len() - rest.len();
    let end = place + piece.length;
    if crate::MOST_BYTES < end {
        return Token {
            code: crate::TOO_LONG,
            place: crate::MOST_BYTES,
            end: crate::MOST_BYTES,
        };
    }
    Token {
        code: piece.code,
        place,
        end,
    }
}
