// The program of a sheet in the papers' notation: the text of the sheet's three lines comes in, the program's text goes out. Nothing here asks anything of its caller.
#![tactic(auto)]

ghost use Rattle.lister.specs.Bytes.{Puts};
ghost use Rattle.lister.specs.Listing.{Listed};
ghost use Rattle.typed.specs.Typing.{refused_text, program_typed, typed_to};

// A refusal: its number and its place.
fn put_refusal(out: &mut [u8], outcome: usize, place: usize) -> usize
    ensures { Puts out.old 0 (refused_text outcome place) out.new result }
{
    let to = lister::listing::put_named(out, 0, b"outcome=", outcome);
    lister::listing::put_named(out, to, b"place=", place)
}

// A program with default names, and a newline; or its refusal.
fn type_program(program: &[i32], out: &mut [u8]) -> usize
    ensures { Puts out.old 0 (program_typed program.now) out.new result }
{
    let names = [0i32; text::NAME_WORDS];
    let nothing = [0u8; 0];
    let mut page = [0u8; tokens::MOST_BYTES];
    let mut answer = [0i32; 4];
    let n = printing::whole::write(program, &nothing, &names, &mut page, &mut answer);
    let outcome = words::number_at(&answer, 0);
    if outcome != 0 {
        return put_refusal(out, outcome, words::number_at(&answer, 1));
    }
    let to = lister::bytes::put_all(out, 0, words::part_to(&page, n));
    lister::bytes::put(out, to, b'\n')
}

// The whole output for a text: how many bytes were written. TYPED_BYTES are enough for every output.
pub fn typed_text(text: &[u8], out: &mut [u8]) -> usize
    ensures { Listed (typed_to text.now) out.old out.new result }
{
    let mut program = [0i32; lister::MOST_NUMBERS];
    let mut proposals = [0i32; lister::MOST_NUMBERS];
    match lister::reading::read_input(text, &mut program, &mut proposals) {
        Ok(input) => type_program(words::part_to(&program, input.program), out),
        Err(line) => lister::listing::write_unfit(out, line),
    }
}

// The longest text that is written, and its newline.
pub const TYPED_BYTES: usize = 65537;
