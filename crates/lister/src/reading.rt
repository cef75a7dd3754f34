// The three lines of the input.
ghost use Rattle.std.specs.Prelude.{◌≡◌};
ghost use Rattle.lister.specs.Reading.{row_in, line_in, budget_in, input_in, RowRead, InputRead};

use super::bytes::{after, begins_with, up_to};
use super::numerals::number;
use crate::{Input, MOST_BYTES, MOST_NUMBERS};
use words::part_from;

const NEWLINE: u8 = b'\n';

// Numbers with one space between, at least one. They are stored as they are read.
fn read_row(s: &[u8], out: &mut [i32]) -> Option<usize>
    ensures { RowRead (row_in s.now) out.old out.new result }
{
    let mut n: usize = 0;
    for piece in s.split(|b| *b == b' ') {
        if n == MOST_NUMBERS {
            return None;
        }
        words::store(out, n, number(piece)?);
        n += 1;
    }
    Some(n)
}

// A line: its name, and then numbers with one space between, or none.
pub fn read_line(line: &[u8], name: &[u8], out: &mut [i32]) -> Option<usize>
    ensures { RowRead (line_in name.now line.now) out.old out.new result }
{
    if !begins_with(line, name) {
        return None;
    }
    let list = part_from(line, name.len());
    if list.is_empty() {
        return Some(0);
    }
    read_row(list, out)
}

// The third line: its name, one number, and nothing after it but a newline.
fn read_budget(text: &[u8]) -> Option<i32>
    ensures { result ≡ budget_in text.now }
{
    if !after(text, NEWLINE).is_empty() {
        return None;
    }
    let line = up_to(text, NEWLINE);
    if !begins_with(line, b"budget=") {
        return None;
    }
    number(part_from(line, 7))
}

// The whole input, or the number of the first unfit line. The numbers of the first two lines are stored as they are read.
pub fn read_input(text: &[u8], program: &mut [i32], proposals: &mut [i32]) -> Result<Input, usize>
    ensures { InputRead (input_in text.now) program.old program.new proposals.old proposals.new result }
{
    if MOST_BYTES < text.len() {
        return Err(1);
    }
    let n = read_line(up_to(text, NEWLINE), b"program=", program).ok_or(1usize)?;
    let rest = after(text, NEWLINE);
    let m = read_line(up_to(rest, NEWLINE), b"proposals=", proposals).ok_or(2usize)?;
    let budget = read_budget(after(rest, NEWLINE)).ok_or(3usize)?;
    Ok(Input {
        program: n,
        proposals: m,
        budget,
    })
}
