// Assignments, new and its fields.
ghost use Rattle.std.specs.Prelude.{false, ◌<◌};
ghost use Rattle.text.specs.Reading.{assignment as assignment_by};
ghost use Rattle.text.specs.Told.{Ahead};
ghost use Rattle.text.specs.Pieces.{Piece, Onward, behind_first, fields_by, fields_at_by};

use super::expressions::expression;
use super::naming::put;
use super::paths::path;
use crate::Reader;

// Fields up to `}`, and their n, at the word from, which comes from the place p.
fn fields(text: &[u8], r: &mut Reader, from: usize, p: usize)
    ensures onward { Ahead text.now r.old.carried → from < r.old.carried.written → Onward false 0 0 from r.old.lent r.old.carried (λ f q. fields_by text.now p (behind_first f) q) r.new.lent r.new.carried }
    ensures ahead { Ahead text.now r.old.carried → Ahead text.now r.new.carried }
{
    let mut seen: [usize; 8] = [0; 8];
    for n in 0..=tables::FIELDS {
        let place = r.carried.start;
        let free = tables::FIELDS - n;
        r.carried.pass(free == 0);
        r.carried.label(text, &mut r.lent.names, &seen[free..]);
        let named = r.carried.named;
        put(&mut seen, free.saturating_sub(1), named);
        r.write_number(named, place);
        r.carried.need(text, tokens::COLON, 0);
        expression(text, r, false);
        if r.carried.number != 0 {
            return;
        }
        if r.carried.code != tokens::COMMA {
            r.lent.put_number(from, n + 1, p);
            r.carried.need(text, tokens::CLOSE_BRACE, 0);
            return;
        }
        r.carried.take(text, 0);
    }
}

// `{`, fields or nothing, `}`; their n is the word at from.
fn fields_at(text: &[u8], r: &mut Reader, from: usize)
    ensures onward { Ahead text.now r.old.carried → from < r.old.carried.written → Onward false 0 0 from r.old.lent r.old.carried (λ f q. fields_at_by text.now (behind_first f) q) r.new.lent r.new.carried }
    ensures ahead { Ahead text.now r.old.carried → Ahead text.now r.new.carried }
{
    let p = r.carried.start;
    r.carried.need(text, tokens::OPEN_BRACE, 0);
    if r.carried.code == tokens::CLOSE_BRACE {
        r.lent.put_word(from, 0, p);
        r.carried.take(text, 0);
        return;
    }
    fields(text, r, from, p);
}

// What begins with a name: an assignment, or new, whose variable is a path without labels.
pub(crate) fn assignment(text: &[u8], r: &mut Reader)
    ensures piece { Ahead text.now r.old.carried → Piece 0 0 r.old.lent r.old.carried (λ q. assignment_by text.now q) r.new.lent r.new.carried }
    ensures ahead { Ahead text.now r.old.carried → Ahead text.now r.new.carried }
{
    let from = r.carried.written;
    let p = r.carried.start;
    r.carried.owe(1);
    r.write(1, p);
    let begun = r.carried.written;
    path(text, r);
    let alone = r.carried.written.saturating_sub(begun) == 2;
    r.carried.need(text, tokens::BECOMES, 0);
    let new = r.carried.code == tokens::NEW;
    if new & alone {
        r.lent.put_word(from, 2, p);
        let at = r.carried.written.saturating_sub(1);
        r.carried.take(text, 0);
        fields_at(text, r, at);
        return;
    }
    expression(text, r, false);
}
