// A text: its words, the places that they come from and its names, or a refusal.
ghost use Rattle.std.specs.Prelude.{◌≡◌, [], ◌∷◌, ◌*◌, ◌≤◌, ◌<◌};
ghost use Rattle.words.specs.Words.{word_of, cleared};
ghost use Rattle.text.specs.Told.{looked_by};
ghost use Rattle.text.specs.Pieces.{first_carried, Whole};
ghost use Rattle.text.specs.Whole.{answered, told_from, sized, read as read_by};

use super::blocks::statements;
use super::naming::word;
use crate::{Carried, Lent, Reader};

// The reader before it has looked at a text, for which the outermost n is certain.
const FRESH: Carried = Carried {
    number: 0,
    place: 0,
    at: 0,
    last: tokens::SEMICOLON,
    certain: 1,
    owed: 0,
    passed: false,
    variables: 0,
    labels: 0,
    named: 0,
    written: 0,
    depth: 1,
    code: 0,
    start: 0,
    end: 0,
};

impl Carried {
    // The reader before the first token.
    fn begin(&mut self, text: &[u8])
        ensures { self.new ≡ looked_by text.now first_carried }
    {
        *self = FRESH;
        self.look(text);
    }
}

// The whole text.
fn text_at(text: &[u8], r: &mut Reader)
    ensures { Whole text.now r.old.lent r.new.lent r.new.carried }
{
    r.carried.begin(text);
    r.write(0, 0);
    if r.carried.code == tokens::END {
        return;
    }
    statements(text, r, 0, 0, program::BLOCK_DEPTH - 1);
    r.carried.need(text, tokens::END, 0);
}

// The n places from one on, as words.
fn tell(out: &mut [i32], places: &[usize], at: usize, n: usize)
    requires at_bound { at < 8192 }
    requires n_bound { n < 8192 }
    ensures { out.new ≡ told_from places.now at n out.old }
{
    for i in 0..n {
        words::store(out, at + i, words::word_of(word(places, at + i)));
    }
}

// The names of so many variables and labels, as words; the rest is 0.
fn tell_names(out: &mut [i32], names: &[usize], variables: usize, labels: usize)
    requires variables_bound { variables ≤ 64 }
    requires labels_bound { labels ≤ 32 }
    ensures { out.new ≡ told_from names.now 128 (2 * labels) (told_from names.now 0 (2 * variables) (cleared 0 192 out.old)) }
{
    words::clear(out, 0, crate::NAME_WORDS);
    tell(out, names, 0, 2 * variables);
    tell(out, names, crate::FIRST_LABEL, 2 * labels);
}

// Program, origins and names have their lengths.
#[tactic(auto, unfolding(crate::specs::Whole::sized))]
fn are_sized(program: &[i32], origins: &[i32], names: &[i32]) -> bool
    ensures { result ≡ sized program.now origins.now names.now }
{
    program.len() == program::MOST_WORDS
        && origins.len() == program::MOST_WORDS
        && names.len() == crate::NAME_WORDS
}

// Reads a text: the answer is outcome, place, and how many variables and labels have names; it returns how many words the program has.
pub fn read(
    text: &[u8],
    program: &mut [i32],
    origins: &mut [i32],
    names: &mut [i32],
    answer: &mut [i32; 4],
) -> usize
    ensures { answered program.new origins.new names.new answer.new result ≡ read_by text.now program.old origins.old names.old }
{
    if !are_sized(program, origins, names) {
        words::answer_with(answer, 1, 0, 0, 0);
        return 0;
    }
    let mut r = Reader {
        lent: Lent {
            names: [0; crate::NAME_WORDS],
            words: [0; crate::ROW],
            origins: [0; crate::ROW],
        },
        carried: FRESH,
    };
    text_at(text, &mut r);
    if r.carried.number != 0 {
        words::answer_with(answer, r.carried.number, r.carried.place, 0, 0);
        return 0;
    }
    let n = r.carried.written.min(program::MOST_WORDS);
    let variables = r.carried.variables.min(tables::VARIABLES);
    let labels = r.carried.labels.min(tables::LABELS);
    words::copy(program, 0, &r.lent.words, n);
    tell(origins, &r.lent.origins, 0, n);
    tell_names(names, &r.lent.names, variables, labels);
    words::answer_with(answer, 0, text.len(), variables, labels);
    n
}
