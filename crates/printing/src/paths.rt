// An L, and L == L.
ghost use Rattle.std.specs.Prelude.{◌≡◌, ◌+◌};
ghost use Rattle.words.specs.Words.{number_at};
ghost use Rattle.printing.specs.Naming.{first_label};
ghost use Rattle.printing.specs.Printing.{labels_text, path_text, sides_text};
ghost use Rattle.printing.specs.Page.{Wrote};

use super::page::Page;
use crate::FIRST_LABEL;

// The label at i, by its number among variables and labels.
pub(crate) fn label_at(p: &[i32], i: usize) -> usize
    ensures { result ≡ first_label + number_at p.now i }
{
    if i < p.len() {
        FIRST_LABEL + words::number(p[i])
    } else {
        FIRST_LABEL + 2147483648
    }
}

impl Page<'_> {
    // `.` and a label, n times.
    fn labels(&mut self, p: &[i32], n: usize)
        ensures { Wrote self.old (labels_text n p.now) self.new }
    {
        for i in 0..n {
            self.add(b".");
            self.name(label_at(p, i));
        }
    }

    // The L at p; the words behind it.
    pub(crate) fn path<'p>(&mut self, p: &'p [i32]) -> &'p [i32]
        ensures wrote { Wrote self.old (path_text p.now).0 self.new }
        ensures rest { result.now ≡ (path_text p.now).1 }
    {
        self.name(words::number_at(p, 0));
        let n = words::number_at(p, 1);
        let q = words::part_from(p, 2);
        self.labels(q, n);
        words::part_from(q, n)
    }

    // L == L, whose two paths begin at p; the words behind it.
    pub(crate) fn sides<'p>(&mut self, p: &'p [i32]) -> &'p [i32]
        ensures wrote { Wrote self.old (sides_text p.now).0 self.new }
        ensures rest { result.now ≡ (sides_text p.now).1 }
    {
        let q = self.path(p);
        self.add(b" == ");
        self.path(q)
    }
}
