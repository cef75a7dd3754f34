// The test of an if or while.
ghost use Rattle.std.specs.Prelude.{◌≡◌};
ghost use Rattle.tables.specs.Lending.{seen};
ghost use Rattle.rules.specs.Running.{test};
ghost use Rattle.expressions.specs.Judging.{tested_of};

use super::operators::truth;
use super::values::find_value;
use program::Refusal;
use tables::View;

// The boolean that the expression at p evaluates to; 8 at its first word where it is none.
pub fn test_at(t: &View<'_>, p: &[i32]) -> Result<bool, Refusal>
    ensures { result ≡ tested_of (test (seen t.now) p.now) }
{
    truth(find_value(t, p)?.value, p.len())
}
