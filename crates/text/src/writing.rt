// Words and the places that they come from, one after the other in two rows.
ghost use Rattle.std.specs.Prelude.{◌≡◌, List, ℕ, ◌-◌, ◌<◌, pos, length, set};
ghost use Rattle.words.specs.Words.{word_of};
ghost use Rattle.text.specs.Reading.{everywhere};
ghost use Rattle.text.specs.Told.{Ahead};
ghost use Rattle.text.specs.Written.{with1, wrote_one, pass_by, Owes, deep_by, numbered_by, raised, filled};
ghost use Rattle.text.specs.Pieces.{Inserts};

use super::naming::{put, word};
use crate::{Carried, Lent, Reader};

impl Carried {
    // The next token passes a limit where b says so.
    pub(crate) fn pass(&mut self, b: bool)
        ensures { self.new ≡ pass_by b self.old }
    {
        if b {
            self.passed = true;
        }
    }

    // k words more are owed.
    pub(crate) fn owe(&mut self, k: usize)
        ensures owes { Owes k self.old self.new }
        ensures ahead { (text : List ℕ) → Ahead text self.old → Ahead text self.new }
    {
        self.owed = self.owed.saturating_add(k);
    }

    // The expression read last is d deep.
    pub(crate) fn deepen(&mut self, d: usize)
        ensures { self.new ≡ deep_by d self.old }
    {
        self.depth = d;
    }

    // The number that was read last is n.
    pub(crate) fn count(&mut self, n: usize)
        ensures { self.new ≡ numbered_by n self.old }
    {
        self.named = n;
    }
}

// The words from a place on and the places that they come from, k further up.
fn raise(words: &mut [i32], origins: &mut [usize], from: usize, end: usize, k: usize)
    requires end_bound { end < 8192 }
    requires k_bound { k < 8192 }
    ensures words_after { words.new ≡ raised (pos 0) from k (end - from) words.old }
    ensures origins_after { origins.new ≡ raised 0 from k (end - from) origins.old }
{
    for i in (from..end).rev() {
        let w = words::word_at(words, i);
        let p = word(origins, i);
        words::store(words, i + k, w);
        put(origins, i + k, p);
    }
}

// The words of the gap from a place on, all with the place p.
fn fill(words: &mut [i32], origins: &mut [usize], from: usize, gap: &[i32], p: usize)
    requires from_bound { from < 8192 }
    requires gap_len_bound { length gap.now < 8192 }
    ensures words_after { words.new ≡ filled from gap.now words.old }
    ensures origins_after { origins.new ≡ filled from (everywhere p gap.now) origins.old }
{
    for (i, w) in gap.iter().enumerate() {
        words::store(words, from + i, *w);
        put(origins, from + i, p);
    }
}

impl Lent {
    // The word at i and the place that it comes from, stored; past the end nothing is stored.
    pub(crate) fn put_word(&mut self, i: usize, w: i32, p: usize)
        ensures names_after { self.new.names ≡ self.old.names }
        ensures words_after { self.new.words ≡ set self.old.words i w }
        ensures origins_after { self.new.origins ≡ set self.old.origins i p }
    {
        words::store(&mut self.words, i, w);
        put(&mut self.origins, i, p);
    }

    // The same of the word of a number.
    pub(crate) fn put_number(&mut self, i: usize, n: usize, p: usize)
        ensures names_after { self.new.names ≡ self.old.names }
        ensures words_after { self.new.words ≡ set self.old.words i (word_of n) }
        ensures origins_after { self.new.origins ≡ set self.old.origins i p }
    {
        self.put_word(i, words::word_of(n), p);
    }
}

impl Reader {
    // A word more, behind those that are written, and its place; nothing where the rows are full.
    pub(crate) fn write(&mut self, w: i32, p: usize)
        ensures names_after { self.new.lent.names ≡ self.old.lent.names }
        ensures words_after { self.new.lent.words ≡ with1 self.old.lent.words self.old.carried w }
        ensures origins_after { self.new.lent.origins ≡ with1 self.old.lent.origins self.old.carried p }
        ensures carried_after { self.new.carried ≡ wrote_one self.old.carried }
    {
        let at = self.carried.written;
        if crate::ROW <= at {
            return;
        }
        self.lent.put_word(at, w, p);
        self.carried.written = at + 1;
    }

    // The same of the word of a number.
    pub(crate) fn write_number(&mut self, n: usize, p: usize)
        ensures names_after { self.new.lent.names ≡ self.old.lent.names }
        ensures words_after { self.new.lent.words ≡ with1 self.old.lent.words self.old.carried (word_of n) }
        ensures origins_after { self.new.lent.origins ≡ with1 self.old.lent.origins self.old.carried p }
        ensures carried_after { self.new.carried ≡ wrote_one self.old.carried }
    {
        self.write(words::word_of(n), p);
    }

    // The words of the gap before those that are written from a place on, which move up; all of them come from the place p.
    // Nothing where the rows would be full.
    pub(crate) fn insert(&mut self, from: usize, gap: &[i32], p: usize)
        ensures names_after { self.new.lent.names ≡ self.old.lent.names }
        ensures inserts { Inserts from gap.now p self.old.lent.words self.old.lent.origins self.old.carried self.new.lent.words self.new.lent.origins self.new.carried }
        ensures ahead { (text : List ℕ) → Ahead text self.old.carried → Ahead text self.new.carried }
    {
        let end = self.carried.written;
        let k = gap.len();
        if crate::ROW <= end || crate::ROW <= k || end < from {
            return;
        }
        raise(&mut self.lent.words, &mut self.lent.origins, from, end, k);
        fill(&mut self.lent.words, &mut self.lent.origins, from, gap, p);
        self.carried.written = end + k;
    }
}
