// Tables and programs as slices of 32-bit signed words. Nothing here asks anything of its caller.
#![tactic(auto)]

pub mod bits; // bits.rt: a mark of one bit for each number

ghost use Rattle.std.specs.Prelude.{◌≡◌, [], ◌∷◌, ◌-◌, pos, ◌+ℤ◌, ◌-ℤ◌, ◌*ℤ◌, drop, set, take};
ghost use Rattle.words.specs.Words.{word_at, number_of, number_at, word_of, last_of, copied, cleared};
ghost use Rattle.words.specs.Range.{ranged};

// The word at i, 0 past the end.
pub fn word_at(s: &[i32], i: usize) -> i32
    ensures { result ≡ word_at s.now i }
{
    if i < s.len() { s[i] } else { 0 }
}

// A word as a number. A negative word becomes 2147483648, which no word is.
pub fn number(w: i32) -> usize
    ensures { result ≡ number_of w }
{
    if w < 0 { 2147483648 } else { w as usize }
}

// The word at i as a number; past the end the same as for a negative word.
pub fn number_at(s: &[i32], i: usize) -> usize
    ensures { result ≡ number_at s.now i }
{
    if i < s.len() {
        number(s[i])
    } else {
        2147483648
    }
}

// A number as a word, the greatest word where no word is that number.
pub fn word_of(n: usize) -> i32
    ensures { result ≡ word_of n }
{
    if n < 2147483648 { n as i32 } else { 2147483647 }
}

// a less b, and 0 where b is the greater.
pub fn less(a: usize, b: usize) -> usize
    ensures { result ≡ a - b }
{
    if b <= a { a - b } else { 0 }
}

// The part that begins at k, empty past the end.
pub fn part_from<T>(s: &[T], k: usize) -> &[T]
    ensures { result.now ≡ drop k s.now }
{
    if k <= s.len() { &s[k..] } else { &s[s.len()..] }
}

// The first k items, all of them where there are fewer.
pub fn part_to<T>(s: &[T], k: usize) -> &[T]
    ensures { result.now ≡ take k s.now }
{
    if k <= s.len() { &s[..k] } else { s }
}

// The last k words, all of them where there are fewer.
pub fn part_last(s: &[i32], k: usize) -> &[i32]
    ensures { result.now ≡ last_of k s.now }
{
    part_from(s, less(s.len(), k))
}

// Stores w at i; past the end nothing is stored.
pub fn store(s: &mut [i32], i: usize, w: i32)
    ensures { s.new ≡ set s.old i w }
{
    if i < s.len() {
        s[i] = w;
    }
}

// The first n words of t, stored from the word at on; what t lacks of them is 0, and what would pass the end is not stored.
pub fn copy(s: &mut [i32], at: usize, t: &[i32], n: usize)
    ensures { s.new ≡ copied t.now at n s.old }
{
    let room = less(s.len(), at);
    for i in 0..n {
        if room <= i {
            return;
        }
        store(s, at + i, word_at(t, i));
    }
}

// n zeros, stored from the word at on.
pub fn clear(s: &mut [i32], at: usize, n: usize)
    ensures { s.new ≡ cleared at n s.old }
{
    let zero: [i32; 1] = [0; 1];
    copy(s, at, &zero, n);
}

// The four words of an answer.
pub fn answer_with(answer: &mut [i32; 4], outcome: usize, place: usize, third: usize, fourth: usize)
    ensures { answer.new ≡ word_of outcome ∷ word_of place ∷ word_of third ∷ word_of fourth ∷ [] }
{
    let a = word_of(outcome);
    let b = word_of(place);
    let c = word_of(third);
    let d = word_of(fourth);
    *answer = [a, b, c, d];
}

// A wide number, if it is a word.
#[tactic(auto, using(crate::proofs::Signed::narrow_below, crate::proofs::Signed::narrow_above, crate::proofs::Signed::narrow_within))]
fn narrow(x: i64) -> Option<i32>
    ensures { result ≡ ranged x }
{
    if x < -2147483648 {
        return None;
    }
    if 2147483647 < x {
        return None;
    }
    Some(x as i32)
}

// The sum of two words.
pub fn plus(a: i32, b: i32) -> Option<i32>
    ensures { result ≡ ranged (a +ℤ b) }
{
    narrow((a as i64) + (b as i64))
}

// The difference of two words.
pub fn minus(a: i32, b: i32) -> Option<i32>
    ensures { result ≡ ranged (a -ℤ b) }
{
    narrow((a as i64) - (b as i64))
}

// The product of two words.
pub fn times(a: i32, b: i32) -> Option<i32>
    ensures { result ≡ ranged (a *ℤ b) }
{
    narrow((a as i64) * (b as i64))
}
