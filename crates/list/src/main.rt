// The run lister: the text of a sheet from standard input, and its output, whole, to standard output.
// What is written is sheet::answer_text's, proved; the reading and the writing are the kit's io.
#![tactic(auto)]

// One byte more than an input may have, so that one that is too long shows.
const TEXT_BYTES: usize = 65537;

fn main() {
    let mut text = [0u8; TEXT_BYTES];
    let mut out = [0u8; lister::LISTING_BYTES];
    let n = io::read_full(0, &mut text);
    let k = sheet::answer_text(words::part_to(&text, n), &mut out);
    io::write_all(1, words::part_to(&out, k));
}
