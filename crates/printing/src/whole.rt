// A program's text, or a refusal that writes nothing.
ghost use Rattle.std.specs.Prelude.{◌≡◌, ◌&&◌, leb};
ghost use Rattle.printing.specs.Naming.{naming_of};
ghost use Rattle.printing.specs.Whole.{answered, printed, write as write_by};

use super::faults::used;
use super::names::{Naming, Standing};
use super::page::Page;
use crate::{FIRST_LABEL, NUMBERS};

// The text of a program that reads: it is measured first, on a row of its own that holds nothing of it, and written only where the whole
// fits.
fn print(program: &[i32], names: Naming, text: &mut [u8], answer: &mut [i32; 4]) -> usize
    ensures { answered text.new answer.new result ≡ printed (naming_of names.entry) program.now text.old }
{
    let mut nothing = [0u8; 1];
    let mut measured = Page {
        names,
        out: &mut nothing,
        at: 0,
        seen: [Standing::Unused; NUMBERS],
    };
    measured.statements(program, program::BLOCK_DEPTH - 1);
    if let Some(fault) = names.first_fault(&measured.seen) {
        words::answer_with(answer, 24, fault, 0, 0);
        return 0;
    }
    let n = measured.at;
    if !fits(text.len(), n) {
        words::answer_with(answer, 25, n, 0, 0);
        return 0;
    }
    let variables = used(&measured.seen, 0, FIRST_LABEL);
    let labels = used(&measured.seen, FIRST_LABEL, tables::LABELS);
    let mut page = Page {
        names,
        out: text,
        at: 0,
        seen: measured.seen,
    };
    page.statements(program, program::BLOCK_DEPTH - 1);
    words::answer_with(answer, 0, program.len(), variables, labels);
    n
}

// A text of n bytes passes neither the room for it nor 64 KiB.
#[tactic(auto, using(std::proofs::lemmas::Bool::Decides::nat_tests))]
fn fits(room: usize, n: usize) -> bool
    ensures { result ≡ leb n room && leb n 65536 }
{
    n <= room && n <= tokens::MOST_BYTES
}

// Writes a program: the answer is outcome, place, and how many variables and labels are used; it returns how many bytes the text has.
pub fn write(
    program: &[i32],
    source: &[u8],
    names: &[i32],
    text: &mut [u8],
    answer: &mut [i32; 4],
) -> usize
    ensures { answered text.new answer.new result ≡ write_by program.now source.now names.now text.old }
{
    if names.len() != text::NAME_WORDS {
        words::answer_with(answer, 1, 0, 0, 0);
        return 0;
    }
    match program::blocks::read_program(program) {
        Err(place) => {
            words::answer_with(answer, 2, place, 0, 0);
            0
        }
        Ok(()) => print(program, Naming { source, names }, text, answer),
    }
}
