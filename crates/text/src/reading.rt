// The token to be judged, taking it, names.
ghost use Rattle.std.specs.Prelude.{◌≡◌};
ghost use Rattle.text.specs.Reading.{due_after, take as take_by, need as need_by, variable as variable_by, label as label_by};
ghost use Rattle.text.specs.Told.{next_of, room_with, Ahead, Follows, Numbers, refused_at, refused_by, looked_by, took_by};

use super::naming::{count_with, is_among, number_in, with_name};
use crate::Carried;
use tokens::Token;

// Whether an operand is due behind a token of this code.
#[tactic(auto, unfolding(crate::specs::Reading::due_after))]
fn due_after(code: usize) -> bool
    ensures { result ≡ due_after code }
{
    matches!(
        code,
        40..=51
            | tokens::BECOMES
            | tokens::COLON
            | tokens::OPEN_BRACKET
            | tokens::ALWAYS..=tokens::IF
            | tokens::WHILE
    )
}

impl Carried {
    // The token to be judged.
    fn next(&self) -> Token
        ensures { result ≡ next_of self.now }
    {
        Token {
            code: self.code,
            place: self.start,
            end: self.end,
        }
    }

    // Finds the token to be judged.
    pub(crate) fn look(&mut self, text: &[u8])
        ensures { self.new ≡ looked_by text.now self.old }
    {
        let t = tokens::scanning::token(text, self.at, due_after(self.last));
        self.code = t.code;
        self.start = t.place;
        self.end = t.end;
    }

    // The reader is stopped at the token to be judged.
    fn refused_at(&mut self, number: usize)
        ensures { self.new ≡ refused_at number self.old.start self.old }
    {
        self.number = number;
        self.place = self.start;
    }

    // The reader is stopped at a token that may not stand there.
    #[tactic(auto, unfolding(crate::specs::Told::refused_by))]
    pub(crate) fn refused(&mut self)
        ensures { self.new ≡ refused_by (next_of self.old) self.old }
    {
        if self.code == tokens::TOO_LONG {
            self.refused_at(22);
            return;
        }
        self.refused_at(20);
    }

    // Whether k words more, with those that are certain and those that are owed, pass no limit.
    #[tactic(auto, unfolding(crate::specs::Told::room_with))]
    fn has_room(&self, k: usize) -> bool
        ensures { result ≡ room_with k self.now }
    {
        !self.passed
            && self.certain.saturating_add(self.owed).saturating_add(k) <= program::MOST_WORDS
    }

    // The reader goes behind the token to be judged, and finds the next one.
    #[tactic(auto, unfolding(crate::specs::Told::room_with, crate::specs::Told::took_by))]
    fn taken(&mut self, text: &[u8], k: usize)
        ensures { self.new ≡ took_by text.now k self.old }
    {
        if !self.has_room(k) {
            self.refused_at(22);
            return;
        }
        self.at = self.end;
        self.last = self.code;
        self.certain = self.certain + self.owed + k;
        self.owed = 0;
        self.passed = false;
        self.look(text);
    }

    // Takes the token, with k words and those that are owed.
    pub(crate) fn take(&mut self, text: &[u8], k: usize)
        ensures follows { Ahead text.now self.old → Follows self.old (λ q. take_by text.now k q) self.new }
        ensures ahead { Ahead text.now self.old → Ahead text.now self.new }
    {
        if self.number != 0 {
            return;
        }
        self.taken(text, k);
    }

    // Takes the token where its code is c.
    pub(crate) fn need(&mut self, text: &[u8], c: usize, k: usize)
        ensures follows { Ahead text.now self.old → Follows self.old (λ q. need_by text.now c k q) self.new }
        ensures ahead { Ahead text.now self.old → Ahead text.now self.new }
    {
        if self.number != 0 {
            return;
        }
        if self.code != c {
            self.refused();
            return;
        }
        self.taken(text, k);
    }

    // Takes a variable's name.
    pub(crate) fn variable(&mut self, text: &[u8], names: &mut [usize], k: usize)
        ensures numbers { Ahead text.now self.old → Numbers names.old self.old (λ q. variable_by text.now k q) names.new self.new }
        ensures ahead { Ahead text.now self.old → Ahead text.now self.new }
    {
        if self.number != 0 {
            return;
        }
        if self.code != tokens::NAME {
            self.refused();
            return;
        }
        let t = self.next();
        let count = self.variables.min(tables::VARIABLES);
        let n = number_in(text, names, 0, count, t);
        if tables::VARIABLES <= n {
            self.refused_at(21);
            return;
        }
        self.taken(text, k);
        if self.number != 0 {
            return;
        }
        with_name(names, 0, count, n, t);
        self.variables = count_with(count, n);
        self.named = n;
    }

    // Takes a label, which is none of those in seen.
    pub(crate) fn label(&mut self, text: &[u8], names: &mut [usize], seen: &[usize])
        ensures numbers { Ahead text.now self.old → Numbers names.old self.old (λ q. label_by text.now seen.now q) names.new self.new }
        ensures ahead { Ahead text.now self.old → Ahead text.now self.new }
    {
        if self.number != 0 {
            return;
        }
        if self.code != tokens::NAME {
            self.refused();
            return;
        }
        let t = self.next();
        let count = self.labels.min(tables::LABELS);
        let n = number_in(text, names, crate::FIRST_LABEL, count, t);
        if is_among(seen, n, count) {
            self.refused();
            return;
        }
        if tables::LABELS <= n {
            self.refused_at(21);
            return;
        }
        self.taken(text, 1);
        if self.number != 0 {
            return;
        }
        with_name(names, crate::FIRST_LABEL, count, n, t);
        self.labels = count_with(count, n);
        self.named = n;
    }
}
