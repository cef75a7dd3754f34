// A refusal at a word.
ghost use Rattle.std.specs.Prelude.{◌≡◌, length};

use crate::Refusal;

impl Refusal {
    // The refusal of this number at the first word of p.
    pub fn at(number: usize, p: &[i32]) -> Refusal
        ensures { result ≡ record { number = number; word = length p.now } }
    {
        Refusal {
            number,
            word: p.len(),
        }
    }
}
