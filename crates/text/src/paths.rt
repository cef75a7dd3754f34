// An L: a variable, and labels behind it.
ghost use Rattle.text.specs.Reading.{steps as steps_by, path as path_by};
ghost use Rattle.text.specs.Told.{Ahead};
ghost use Rattle.text.specs.Pieces.{Piece};

use crate::Reader;

// `.` and a label, n times at most.
fn steps(text: &[u8], r: &mut Reader, n: usize)
    ensures piece { Ahead text.now r.old.carried → Piece 0 0 r.old.lent r.old.carried (λ q. steps_by text.now n q) r.new.lent r.new.carried }
    ensures ahead { Ahead text.now r.old.carried → Ahead text.now r.new.carried }
{
    if r.carried.number != 0 {
        return;
    }
    if r.carried.code != tokens::DOT {
        return;
    }
    r.carried.take(text, 0);
    r.carried.pass(n == 0);
    let p = r.carried.start;
    let none: [usize; 0] = [];
    r.carried.label(text, &mut r.lent.names, &none);
    if n == 0 {
        return;
    }
    let named = r.carried.named;
    r.write_number(named, p);
    steps(text, r, n - 1);
}

// An L, whose variable makes its own word and that of its n certain.
pub(crate) fn path(text: &[u8], r: &mut Reader)
    ensures piece { Ahead text.now r.old.carried → Piece 3 0 r.old.lent r.old.carried (λ q. path_by text.now 2 q) r.new.lent r.new.carried }
    ensures ahead { Ahead text.now r.old.carried → Ahead text.now r.new.carried }
{
    let p = r.carried.start;
    r.carried.variable(text, &mut r.lent.names, 2);
    let named = r.carried.named;
    r.write_number(named, p);
    let at = r.carried.written;
    r.write(0, p);
    let begun = r.carried.written;
    steps(text, r, program::MOST_STEPS);
    let n = r.carried.written.saturating_sub(begun);
    r.lent.put_number(at, n, p);
}
