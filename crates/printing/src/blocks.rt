// Statements and blocks.
ghost use Rattle.std.specs.Prelude.{◌≡◌, ◌∷◌};
ghost use Rattle.printing.specs.Signs.{line_bytes, between_bytes};
ghost use Rattle.printing.specs.Printing.{assign_text, new_text, statement_text, branch_text, loop_text, statements_text, block_text};
ghost use Rattle.printing.specs.Page.{Added, Wrote};

use super::page::Page;
use program::EXPRESSION_DEPTH;

impl Page<'_> {
    // What follows the word of an assignment: L e.
    fn assignment<'p>(&mut self, p: &'p [i32]) -> &'p [i32]
        ensures wrote { Wrote self.old (assign_text p.now).0 self.new }
        ensures rest { result.now ≡ (assign_text p.now).1 }
    {
        let q = self.path(p);
        self.add(b" := ");
        self.expression(q, EXPRESSION_DEPTH, 1)
    }

    // What follows the word of new: variable, and the fields.
    fn new_record<'p>(&mut self, p: &'p [i32]) -> &'p [i32]
        ensures wrote { Wrote self.old (new_text p.now).0 self.new }
        ensures rest { result.now ≡ (new_text p.now).1 }
    {
        self.name(words::number_at(p, 0));
        self.add(b" := new {");
        let rest = self.fields(words::part_from(p, 1));
        self.add(b"}");
        rest
    }

    // The statement at p, whose blocks nest at most d deep; the words behind it.
    #[cycle(block_conditional_repeated_statement_statements)]
    fn statement<'p>(&mut self, p: &'p [i32], d: usize) -> &'p [i32]
        ensures wrote { Wrote self.old (statement_text d p.now).0 self.new }
        ensures rest { result.now ≡ (statement_text d p.now).1 }
    {
        let verb = words::number_at(p, 0);
        let q = words::part_from(p, 1);
        match verb {
            0 => {
                self.add(b"skip");
                q
            }
            1 => self.assignment(q),
            2 => self.new_record(q),
            3 => {
                self.add(b"always ");
                self.constraint(q)
            }
            4 => {
                self.add(b"once ");
                self.constraint(q)
            }
            5 => {
                self.add(b"always ");
                self.sides(q)
            }
            6 => {
                self.add(b"once ");
                self.sides(q)
            }
            7 => self.conditional(q, d),
            8 => self.repeated(q, d),
            _ => p,
        }
    }

    // What follows the word of if: e and two blocks.
    #[cycle(block_conditional_repeated_statement_statements)]
    fn conditional<'p>(&mut self, p: &'p [i32], d: usize) -> &'p [i32]
        ensures wrote { Wrote self.old (branch_text (λ q. block_text d q) p.now).0 self.new }
        ensures rest { result.now ≡ (branch_text (λ q. block_text d q) p.now).1 }
    {
        self.add(b"if ");
        let q = self.expression(p, EXPRESSION_DEPTH, 1);
        self.add(b" then ");
        let r = self.block(q, d);
        self.add(b" else ");
        self.block(r, d)
    }

    // What follows the word of while: e and a block.
    #[cycle(block_conditional_repeated_statement_statements)]
    fn repeated<'p>(&mut self, p: &'p [i32], d: usize) -> &'p [i32]
        ensures wrote { Wrote self.old (loop_text (λ q. block_text d q) p.now).0 self.new }
        ensures rest { result.now ≡ (loop_text (λ q. block_text d q) p.now).1 }
    {
        self.add(b"while ");
        let q = self.expression(p, EXPRESSION_DEPTH, 1);
        self.add(b" do ");
        self.block(q, d)
    }

    // `;` and a newline, before each statement but the first.
    fn add_next(&mut self, i: usize, d: usize)
        ensures { Added self.old (between_bytes i (59 ∷ line_bytes d)) self.new }
    {
        if i == 0 {
            return;
        }
        self.add(b";");
        self.add_line(d);
    }

    // The statements of the block at p, whose own blocks nest at most d deep.
    #[cycle(block_conditional_repeated_statement_statements)]
    pub(crate) fn statements<'p>(&mut self, p: &'p [i32], d: usize) -> &'p [i32]
        ensures wrote { Wrote self.old (statements_text d p.now).0 self.new }
        ensures rest { result.now ≡ (statements_text d p.now).1 }
    {
        let n = words::number_at(p, 0);
        let mut rest = words::part_from(p, 1);
        for i in 0..n {
            self.add_next(i, d);
            rest = self.statement(rest, d);
        }
        rest
    }

    // A block in its braces, which nests at most d deep.
    #[cycle(block_conditional_repeated_statement_statements)]
    fn block<'p>(&mut self, p: &'p [i32], d: usize) -> &'p [i32]
        ensures wrote { Wrote self.old (block_text d p.now).0 self.new }
        ensures rest { result.now ≡ (block_text d p.now).1 }
    {
        if d == 0 {
            return p;
        }
        if words::number_at(p, 0) == 0 {
            self.add(b"{}");
            return words::part_from(p, 1);
        }
        self.add(b"{");
        self.add_line(d - 1);
        let rest = self.statements(p, d - 1);
        self.add_line(d);
        self.add(b"}");
        rest
    }
}
