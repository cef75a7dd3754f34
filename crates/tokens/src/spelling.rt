// The codes of keywords and marks, by their spelling.
ghost use Rattle.std.specs.Prelude.{◌≡◌, ◌∷◌, []};
ghost use Rattle.tokens.specs.Codes.{name_code, no_token};
ghost use Rattle.tokens.specs.Spelling.{code_of, keywords, later_keywords, pairs, singles};

use super::bytes::spells;

// The code of a keyword, NAME where the word is none.
#[tactic(auto, unfolding(crate::specs::Spelling::code_of, crate::specs::Spelling::keywords))]
pub fn keyword(word: &[u8]) -> usize
    ensures { result ≡ code_of name_code keywords word.now }
{
    if spells(word, b"new") {
        return crate::NEW;
    }
    if spells(word, b"skip") {
        return crate::SKIP;
    }
    if spells(word, b"always") {
        return crate::ALWAYS;
    }
    if spells(word, b"once") {
        return crate::ONCE;
    }
    if spells(word, b"weak") {
        return crate::WEAK;
    }
    if spells(word, b"medium") {
        return crate::MEDIUM;
    }
    if spells(word, b"required") {
        return crate::REQUIRED;
    }
    if spells(word, b"if") {
        return crate::IF;
    }
    later_keyword(word)
}

#[tactic(auto, unfolding(crate::specs::Spelling::code_of, crate::specs::Spelling::later_keywords))]
fn later_keyword(word: &[u8]) -> usize
    ensures { result ≡ code_of name_code later_keywords word.now }
{
    if spells(word, b"then") {
        return crate::THEN;
    }
    if spells(word, b"else") {
        return crate::ELSE;
    }
    if spells(word, b"while") {
        return crate::WHILE;
    }
    if spells(word, b"do") {
        return crate::DO;
    }
    if spells(word, b"true") {
        return crate::TRUE;
    }
    if spells(word, b"false") {
        return crate::FALSE;
    }
    if spells(word, b"nil") {
        return crate::NIL;
    }
    if spells(word, b"and") {
        return crate::AND;
    }
    if spells(word, b"or") {
        return crate::OR;
    }
    crate::NAME
}

// The code of a mark of two bytes, NO_TOKEN where they are none.
#[tactic(auto, unfolding(crate::specs::Spelling::code_of, crate::specs::Spelling::pairs, crate::specs::Bytes::spelt))]
pub fn pair(b: u8, c: u8) -> usize
    ensures { result ≡ code_of no_token pairs (b ∷ c ∷ []) }
{
    match (b, c) {
        (b':', b'=') => crate::BECOMES,
        (b'=', b'=') => crate::IDENTICAL,
        (b'<', b'=') => crate::AT_MOST,
        (b'!', b'=') => crate::UNEQUAL,
        (b'>', b'=') => crate::AT_LEAST,
        (b'/', b'\\') => crate::BESIDE,
        _ => crate::NO_TOKEN,
    }
}

// The code of a mark of one byte, NO_TOKEN where it is none.
#[tactic(auto, unfolding(crate::specs::Spelling::code_of, crate::specs::Spelling::singles, crate::specs::Bytes::spelt))]
pub fn single(b: u8) -> usize
    ensures { result ≡ code_of no_token singles (b ∷ []) }
{
    match b {
        b':' => crate::COLON,
        b',' => crate::COMMA,
        b'.' => crate::DOT,
        b';' => crate::SEMICOLON,
        b'{' => crate::OPEN_BRACE,
        b'}' => crate::CLOSE_BRACE,
        b'(' => crate::OPEN_BRACKET,
        b')' => crate::CLOSE_BRACKET,
        b'+' => crate::PLUS,
        b'-' => crate::MINUS,
        b'*' => crate::TIMES,
        b'<' => crate::BELOW,
        b'=' => crate::EQUAL,
        b'>' => crate::ABOVE,
        _ => crate::NO_TOKEN,
    }
}
