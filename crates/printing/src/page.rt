// Bytes behind each other in a lent row. What the row does not hold is counted all the same, so that a text is measured by writing it to a
// row that holds nothing.
ghost use Rattle.std.specs.Prelude.{◌≡◌, ◌∷◌, []};
ghost use Rattle.lister.specs.Numerals.{numeral};
ghost use Rattle.printing.specs.Signs.{line_bytes};
ghost use Rattle.printing.specs.Page.{Added};

use super::names::{Naming, Standing};
use crate::{FAR, NUMBERS};

// A text that is being written of a program with these names: its row, where the next byte is written, and which numbers of names it uses.
#[derive(Drop)]
pub(crate) struct Page<'a> {
    pub(crate) names: Naming<'a>,
    pub(crate) out: &'a mut [u8],
    pub(crate) at: usize,
    pub(crate) seen: [Standing; NUMBERS],
}

impl Page<'_> {
    // A byte more.
    fn put(&mut self, b: u8)
        ensures { Added self.old (b ∷ []) self.new }
    {
        if self.at < self.out.len() {
            self.out[self.at] = b;
        }
        if self.at < FAR {
            self.at += 1;
        }
    }

    // The bytes of s more.
    pub(crate) fn add(&mut self, s: &[u8])
        ensures { Added self.old s.now self.new }
    {
        for b in s {
            self.put(*b);
        }
    }

    // A word in decimal.
    pub(crate) fn add_number(&mut self, w: i32)
        ensures { Added self.old (numeral w) self.new }
    {
        let mut b = [0u8; crate::SHORT];
        let n = lister::numerals::put_number(&mut b, 0, w);
        self.add(words::part_to(&b, n));
    }

    // A newline, and two spaces for each brace that is open where blocks may nest d deep.
    pub(crate) fn add_line(&mut self, d: usize)
        ensures { Added self.old (line_bytes d) self.new }
    {
        let n = 1 + 2 * words::less(program::BLOCK_DEPTH - 1, d);
        self.add(words::part_to(b"\n              ", n));
    }
}
