// L == L, tested now.
ghost use Rattle.std.specs.Prelude.{◌≡◌, drop};
ghost use Rattle.tables.specs.Lending.{seen};
ghost use Rattle.rules.specs.Identities.{same_now};
ghost use Rattle.statements.specs.Told.{sameness_of};

use expressions::operators::are_same;
use expressions::paths::value_at;
use phases::classes::is_node;
use program::Refusal;
use tables::View;

// Both sides of the identity at s hold references or nil, and the same one: 7, 8, 11. s begins at the statement's word.
pub fn same_now(t: &View<'_>, s: &[i32]) -> Result<(), Refusal>
    ensures { result ≡ sameness_of (same_now (seen t.now) s.now (drop 1 s.now)) }
{
    let p = words::part_from(s, 1);
    let v = value_at(t, p)?;
    let q = words::part_last(p, v.left);
    let u = value_at(t, q)?;
    if !is_node(v.value) {
        return Err(Refusal::at(8, p));
    }
    if !is_node(u.value) {
        return Err(Refusal::at(8, q));
    }
    if !are_same(v.value, u.value) {
        return Err(Refusal::at(11, s));
    }
    Ok(())
}
