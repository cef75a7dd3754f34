// Operands, operators and brackets.
ghost use Rattle.std.specs.Prelude.{◌≡◌, ◌≤◌};
ghost use Rattle.printing.specs.Signs.{operator_bytes};
ghost use Rattle.printing.specs.Printing.{expression_text, operation_text, operands_text};
ghost use Rattle.printing.specs.Page.{Wrote};

use super::page::Page;

// The operator of number k, with a space on both sides.
#[tactic(auto, unfolding(crate::specs::Signs::operator_text))]
fn operator(k: usize) -> &'static [u8]
    ensures { result.now ≡ operator_bytes k }
{
    match k {
        1 => b" + ",
        2 => b" - ",
        3 => b" * ",
        4 => b" < ",
        5 => b" <= ",
        6 => b" = ",
        7 => b" != ",
        8 => b" >= ",
        9 => b" > ",
        10 => b" and ",
        11 => b" or ",
        _ => b"",
    }
}

impl Page<'_> {
    // The expression at p, which nests at most d deep, under an operator that asks for one of level low or above; the words behind it.
    #[cycle(expression_operands_operation)]
    pub(crate) fn expression<'p>(&mut self, p: &'p [i32], d: usize, low: usize) -> &'p [i32]
        ensures wrote { Wrote self.old (expression_text d low p.now).0 self.new }
        ensures rest { result.now ≡ (expression_text d low p.now).1 }
    {
        if d == 0 {
            return p;
        }
        let form = words::number_at(p, 0);
        let q = words::part_from(p, 1);
        match form {
            20 => {
                self.add(b"nil");
                q
            }
            21 => {
                self.add(b"false");
                q
            }
            22 => {
                self.add(b"true");
                q
            }
            23 => {
                self.add_number(words::word_at(q, 0));
                words::part_from(q, 1)
            }
            24 => self.path(q),
            25 => self.operation(q, d - 1, low),
            26 => self.sides(q),
            _ => p,
        }
    }

    // The operation whose operator is the first word of p, and whose operands nest at most d deep; in brackets where it binds less tightly
    // than low.
    #[cycle(expression_operands_operation)]
    fn operation<'p>(&mut self, p: &'p [i32], d: usize, low: usize) -> &'p [i32]
        ensures wrote { Wrote self.old (operation_text (λ l q. expression_text d l q) low p.now).0 self.new }
        ensures rest { result.now ≡ (operation_text (λ l q. expression_text d l q) low p.now).1 }
    {
        let k = words::number_at(p, 0);
        let level = text::levels::level_of(k);
        let q = words::part_from(p, 1);
        if low <= level {
            return self.operands(q, d, k, level);
        }
        self.add(b"(");
        let rest = self.operands(q, d, k, level);
        self.add(b")");
        rest
    }

    // The operands at p, with the operator of number k between them. "Each level groups left": the right one has to bind more tightly.
    #[cycle(expression_operands_operation)]
    fn operands<'p>(&mut self, p: &'p [i32], d: usize, k: usize, level: usize) -> &'p [i32]
        requires { level ≤ 5 }
        ensures wrote { Wrote self.old (operands_text (λ l q. expression_text d l q) k level p.now).0 self.new }
        ensures rest { result.now ≡ (operands_text (λ l q. expression_text d l q) k level p.now).1 }
    {
        let q = self.expression(p, d, level);
        self.add(operator(k));
        self.expression(q, d, level + 1)
    }
}
