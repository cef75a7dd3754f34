// Names that are unfit.
ghost use Rattle.std.specs.Prelude.{◌≡◌, ◌-◌};
ghost use Rattle.tokens.specs.Bytes.{spelt};
ghost use Rattle.printing.specs.Naming.{ranks, naming_of, name_of};
ghost use Rattle.printing.specs.Faults.{is_name, is_part, is_fit, is_had, twin_from, has_twin, at_fault, fault_from, used_from, found};

use super::names::{Naming, Standing, standing_at};
use crate::{FIRST_LABEL, NUMBERS, SHORT};
use tokens::bytes::spells;

// The bytes are one name of the notation, no longer than a text may be.
#[tactic(auto, using(std::proofs::lemmas::Bool::Decides::nat_tests), unfolding(crate::specs::Faults::is_name))]
fn is_name(s: &[u8]) -> bool
    ensures { result ≡ is_name s.now }
{
    let t = tokens::scanning::token(s, 0, false);
    t.code == tokens::NAME && t.place == 0 && t.end == s.len()
}

impl Naming<'_> {
    // The name that is given lies in the source.
    #[tactic(auto, using(std::proofs::lemmas::Bool::Decides::nat_tests), unfolding(crate::specs::Faults::is_part))]
    fn is_part(self, i: usize) -> bool
        ensures { result ≡ is_part (naming_of self.entry) i }
    {
        let place = self.place_of(i);
        place != 2147483648 && self.length_of(i) <= words::part_from(self.source, place).len()
    }

    // No name is given to the number, or one that lies in the source and is a name.
    #[tactic(auto, using(std::proofs::lemmas::Bool::Decides::nat_tests), unfolding(crate::specs::Faults::is_fit))]
    fn is_fit(self, i: usize) -> bool
        ensures { result ≡ is_fit (naming_of self.entry) i }
    {
        self.length_of(i) == 0 || self.is_part(i) && is_name(self.given_name(i))
    }

    // Two numbers have the same name.
    fn are_twins(self, i: usize, j: usize) -> bool
        ensures { result ≡ spelt (name_of (naming_of self.entry) i) (name_of (naming_of self.entry) j) }
    {
        let mut a = [0u8; SHORT];
        let mut b = [0u8; SHORT];
        spells(self.name_of(&mut b, j), self.name_of(&mut a, i))
    }

    // The number is given a name, or used.
    #[tactic(auto, using(std::proofs::lemmas::Bool::Decides::nat_tests), unfolding(crate::specs::Faults::is_had))]
    fn is_had(self, seen: &[Standing], i: usize) -> bool
        ensures { result ≡ is_had self.entry.names.now (ranks seen.now) i }
    {
        self.length_of(i) != 0 || standing_at(seen, i).is_used()
    }

    // One of the numbers from j on to the one before i is given a name or used, and has the name of i.
    fn twin_from(self, seen: &[Standing], i: usize, j: usize) -> bool
        ensures { result ≡ twin_from (naming_of self.entry) (ranks seen.now) i j (i - j) }
    {
        (j..i).any(|k| self.is_had(seen, k) && self.are_twins(i, k))
    }

    // An earlier number of its sort has the name of i.
    #[tactic(auto, using(std::proofs::lemmas::Bool::Decides::nat_tests), unfolding(crate::specs::Faults::has_twin))]
    fn has_twin(self, seen: &[Standing], i: usize) -> bool
        ensures { result ≡ has_twin (naming_of self.entry) (ranks seen.now) i }
    {
        let first = if i < FIRST_LABEL { 0 } else { FIRST_LABEL };
        self.is_had(seen, i) && self.twin_from(seen, i, first)
    }

    // The number is at fault.
    #[tactic(auto, using(std::proofs::lemmas::Bool::Decides::nat_tests), unfolding(crate::specs::Faults::at_fault))]
    fn is_at_fault(self, seen: &[Standing], i: usize) -> bool
        ensures { result ≡ at_fault (naming_of self.entry) (ranks seen.now) i }
    {
        !self.is_fit(i) || standing_at(seen, i).is_early() || self.has_twin(seen, i)
    }

    // The first number at fault.
    pub(crate) fn first_fault(self, seen: &[Standing]) -> Option<usize>
        ensures { result ≡ found (fault_from (naming_of self.entry) (ranks seen.now) 0 96) }
    {
        (0..NUMBERS).find(|i| self.is_at_fault(seen, *i))
    }
}

// How many of the n numbers from one on are used.
pub(crate) fn used(seen: &[Standing], from: usize, n: usize) -> usize
    ensures { result ≡ used_from (ranks seen.now) from n }
{
    let part = words::part_to(words::part_from(seen, from), n);
    part.iter().filter(|s| s.is_used()).count()
}
