// The program of a sheet, typed: the text of the sheet from standard input, and the program's text to standard output.
// What is written is typed::typed_text's, proved; the reading and the writing are the kit's io.
#![tactic(auto)]

// One byte more than an input may have, so that one that is too long shows.
const TEXT_BYTES: usize = 65537;

fn main() {
    let mut text = [0u8; TEXT_BYTES];
    let mut out = [0u8; typed::TYPED_BYTES];
    let n = io::read_full(0, &mut text);
    let k = typed::typed_text(words::part_to(&text, n), &mut out);
    io::write_all(1, words::part_to(&out, k));
}
