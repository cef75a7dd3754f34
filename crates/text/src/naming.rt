// The table of names: the number of a name, and a name more.
ghost use Rattle.std.specs.Prelude.{◌≡◌, ◌&&◌, ◌<◌, ltb, get_or, set};
ghost use Rattle.program.specs.Reading.{among};
ghost use Rattle.text.specs.Reading.{number_in};
ghost use Rattle.text.specs.Told.{name_at, is_name, names_from, table_with, count_with};

use tokens::Token;

// The word at i, 0 past the end.
pub(crate) fn word(names: &[usize], i: usize) -> usize
    ensures { result ≡ get_or names.now i 0 }
{
    names.get(i).copied().unwrap_or(0)
}

// Stores w at i; past the end nothing is stored.
pub(crate) fn put(names: &mut [usize], i: usize, w: usize)
    ensures { names.new ≡ set names.old i w }
{
    if i < names.len() {
        names[i] = w;
    }
}

// Whether the token is the name whose place and length begin at the word i.
fn is_name(text: &[u8], names: &[usize], i: usize, t: Token) -> bool
    requires { i < 32768 }
    ensures { result ≡ is_name text.now (name_at names.now i) t }
{
    let length = word(names, i + 1);
    if length != t.end.saturating_sub(t.place) {
        return false;
    }
    tokens::bytes::same(text, word(names, i), t.place, length)
}

// The number of the token's name among the first count names from a word on, or count.
pub(crate) fn number_in(text: &[u8], names: &[usize], from: usize, count: usize, t: Token) -> usize
    requires from_bound { from < 4096 }
    requires count_bound { count < 4096 }
    ensures { result ≡ number_in text.now (names_from names.now from count) t }
{
    for i in 0..count {
        if is_name(text, names, from + 2 * i, t) {
            return i;
        }
    }
    count
}

// The token's name behind the first count names from a word on, where number says that it is new.
pub(crate) fn with_name(names: &mut [usize], from: usize, count: usize, number: usize, t: Token)
    requires from_bound { from < 4096 }
    requires count_bound { count < 4096 }
    ensures { names.new ≡ table_with names.old from count number t }
{
    if number < count {
        return;
    }
    let i = from + 2 * count;
    put(names, i, t.place);
    put(names, i + 1, t.end.saturating_sub(t.place));
}

// How many names there are with the one of this number.
#[tactic(auto, unfolding(crate::specs::Told::count_with))]
pub(crate) fn count_with(count: usize, number: usize) -> usize
    requires { count < 4096 }
    ensures { result ≡ count_with count number }
{
    if number < count { count } else { count + 1 }
}

// Whether the name of a number below count is one of those in seen.
pub(crate) fn is_among(seen: &[usize], number: usize, count: usize) -> bool
    ensures { result ≡ ltb number count && among number seen.now }
{
    number < count && seen.contains(&number)
}
