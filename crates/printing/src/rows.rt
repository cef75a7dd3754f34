// The parts of a constraint, and the fields of a record.
ghost use Rattle.std.specs.Prelude.{◌≡◌};
ghost use Rattle.printing.specs.Signs.{priority_bytes, between_bytes};
ghost use Rattle.printing.specs.Printing.{part_text, constraint_text, field_text, fields_text};
ghost use Rattle.printing.specs.Page.{Wrote};

use super::page::Page;
use super::paths::label_at;
use program::EXPRESSION_DEPTH;

// The priority of number k, and a space.
#[tactic(auto, unfolding(crate::specs::Signs::priority_text))]
fn priority(k: usize) -> &'static [u8]
    ensures { result.now ≡ priority_bytes k }
{
    match k {
        1 => b"weak ",
        2 => b"medium ",
        3 => b"required ",
        _ => b"",
    }
}

// What stands before piece i of a row whose pieces are parted by s: nothing before the first.
fn between(i: usize, s: &[u8]) -> &[u8]
    ensures { result.now ≡ between_bytes i s.now }
{
    if i == 0 { b"" } else { s }
}

impl Page<'_> {
    // A part of C: its priority, which is always written out, and e.
    fn part<'p>(&mut self, p: &'p [i32]) -> &'p [i32]
        ensures wrote { Wrote self.old (part_text p.now).0 self.new }
        ensures rest { result.now ≡ (part_text p.now).1 }
    {
        self.add(priority(words::number_at(p, 0)));
        let q = words::part_from(p, 1);
        self.expression(q, EXPRESSION_DEPTH, 1)
    }

    // C: m, m parts.
    pub(crate) fn constraint<'p>(&mut self, p: &'p [i32]) -> &'p [i32]
        ensures wrote { Wrote self.old (constraint_text p.now).0 self.new }
        ensures rest { result.now ≡ (constraint_text p.now).1 }
    {
        let m = words::number_at(p, 0);
        let mut rest = words::part_from(p, 1);
        for i in 0..m {
            self.add(between(i, b" /\\ "));
            rest = self.part(rest);
        }
        rest
    }

    // Label and e.
    fn field<'p>(&mut self, p: &'p [i32]) -> &'p [i32]
        ensures wrote { Wrote self.old (field_text p.now).0 self.new }
        ensures rest { result.now ≡ (field_text p.now).1 }
    {
        self.name(label_at(p, 0));
        self.add(b": ");
        let q = words::part_from(p, 1);
        self.expression(q, EXPRESSION_DEPTH, 1)
    }

    // The fields of a new record: n, n times label and e.
    pub(crate) fn fields<'p>(&mut self, p: &'p [i32]) -> &'p [i32]
        ensures wrote { Wrote self.old (fields_text p.now).0 self.new }
        ensures rest { result.now ≡ (fields_text p.now).1 }
    {
        let n = words::number_at(p, 0);
        let mut rest = words::part_from(p, 1);
        for i in 0..n {
            self.add(between(i, b", "));
            rest = self.field(rest);
        }
        rest
    }
}
