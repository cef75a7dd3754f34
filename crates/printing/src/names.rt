// The names of variables and labels, and in which order these are used.
ghost use Rattle.std.specs.Prelude.{◌≡◌, eqb, ltb, length, get_or, take};
ghost use Rattle.printing.specs.Page.{Named};
ghost use Rattle.printing.specs.Naming.{rank, ranks, naming_of, place_of, length_of, given_name, default_name, name_of, is_led, noted};

use super::page::Page;
use crate::{FIRST_LABEL, NUMBERS, SHORT};

// The bytes of a source, and where in them the names of variables and labels lie: two words for each number, the place of its name and the
// length.
#[derive(Clone, Copy)]
pub(crate) struct Naming<'a> {
    pub(crate) source: &'a [u8],
    pub(crate) names: &'a [i32],
}

// Whether a number is used, and how it then appeared first: led, as the first of its sort or behind one that was used, or too early.
#[derive(Clone, Copy, Debug, PartialEq, Eq)]
pub(crate) enum Standing {
    Unused,
    Led,
    Early,
}

impl Standing {
    // The number is used, in order or not.
    pub(crate) fn is_used(self) -> bool
        ensures { result ≡ ltb 0 (rank self) }
    {
        self != Standing::Unused
    }

    // The number was used before the one before it.
    pub(crate) fn is_early(self) -> bool
        ensures { result ≡ eqb (rank self) 2 }
    {
        self == Standing::Early
    }
}

impl<'a> Naming<'a> {
    // Where the name of a number begins in the source.
    #[tactic(auto, using(std::proofs::lemmas::Bool::Decides::nat_tests), unfolding(crate::specs::Naming::place_of))]
    pub(crate) fn place_of(self, i: usize) -> usize
        ensures { result ≡ place_of self.entry.names.now i }
    {
        if i < NUMBERS {
            words::number(words::word_at(self.names, 2 * i))
        } else {
            0
        }
    }

    // How long the name of a number is: 0 where none is given.
    #[tactic(auto, using(std::proofs::lemmas::Bool::Decides::nat_tests), unfolding(crate::specs::Naming::length_of))]
    pub(crate) fn length_of(self, i: usize) -> usize
        ensures { result ≡ length_of self.entry.names.now i }
    {
        if i < NUMBERS {
            words::number(words::word_at(self.names, 2 * i + 1))
        } else {
            0
        }
    }

    // The part of the source that is given as a name.
    #[tactic(auto, using(std::proofs::lemmas::Bool::Decides::nat_tests), unfolding(crate::specs::Naming::given_name))]
    pub(crate) fn given_name(self, i: usize) -> &'a [u8]
        ensures { result.now ≡ given_name (naming_of self.entry) i }
    {
        let s = words::part_from(self.source, self.place_of(i));
        words::part_to(s, self.length_of(i))
    }

    // The name of a number, which is written to b where none is given.
    #[tactic(auto, using(std::proofs::lemmas::Bool::Decides::nat_tests), unfolding(crate::specs::Naming::name_of))]
    pub(crate) fn name_of(self, b: &'a mut [u8; SHORT], i: usize) -> &'a [u8]
        ensures { result.now ≡ name_of (naming_of self.entry) i }
    {
        if self.length_of(i) != 0 {
            return self.given_name(i);
        }
        let n = default_name(b, i);
        words::part_to(b, n)
    }
}

// The name of a number to which none is given, in the first bytes of b.
fn default_name(b: &mut [u8; SHORT], i: usize) -> usize
    ensures b_after { take result b.new ≡ default_name i }
    ensures b_len { length b.new ≡ 24 }
{
    if i < FIRST_LABEL {
        let k = lister::bytes::put(b, 0, b'v');
        return lister::numerals::put_natural(b, k, i);
    }
    let k = lister::bytes::put(b, 0, b'f');
    lister::numerals::put_natural(b, k, i - FIRST_LABEL)
}

// The number is the first of its sort, or the one before it has been used.
#[tactic(auto, using(std::proofs::lemmas::Bool::Decides::nat_tests), unfolding(crate::specs::Naming::is_led))]
fn is_led(seen: &[Standing], i: usize) -> bool
    ensures { result ≡ is_led (ranks seen.now) i }
{
    i == 0 || i == FIRST_LABEL || standing_at(seen, i - 1).is_used()
}

// The standing of a number; past the end none is used.
pub(crate) fn standing_at(seen: &[Standing], i: usize) -> Standing
    ensures { rank result ≡ get_or (ranks seen.now) i 0 }
{
    seen.get(i).copied().unwrap_or(Standing::Unused)
}

// Notes that a number is used.
#[tactic(auto, using(std::proofs::lemmas::Bool::Decides::nat_tests), unfolding(crate::specs::Naming::noted))]
fn note(seen: &mut [Standing; NUMBERS], i: usize)
    ensures { ranks seen.new ≡ noted (ranks seen.old) i }
{
    if i < NUMBERS && !standing_at(seen, i).is_used() {
        seen[i] = if is_led(seen, i) {
            Standing::Led
        } else {
            Standing::Early
        };
    }
}

impl Page<'_> {
    // The name of a number, which is used.
    pub(crate) fn name(&mut self, i: usize)
        ensures { Named self.old i self.new }
    {
        note(&mut self.seen, i);
        let names = self.names;
        let mut b = [0u8; SHORT];
        self.add(names.name_of(&mut b, i));
    }
}
