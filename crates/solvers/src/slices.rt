// The statement with one slice, which is one whole proposal.
ghost use Rattle.std.specs.Prelude.{◌≡◌};
ghost use Rattle.rules.specs.Solvers.{is_named, has_more, turns_down};
ghost use Rattle.rules.specs.Solvers.{alone as alone_by};
ghost use Rattle.tables.specs.Lending.{StillLent};
ghost use Rattle.phases.specs.Told.{state_in, Does};

use phases::Done;
use program::Refusal;
use tables::Tables;

// The word is that of one of the statements 1 to 4.
pub(crate) fn is_named(program: &[i32], word: i32) -> bool
    ensures { result ≡ is_named program.now word }
{
    match program::places::statement_at(program, words::number(word)) {
        None => false,
        Some(spot) => {
            if spot.verb == 0 {
                return false;
            }
            spot.verb <= 4
        }
    }
}

// More words than n pairs take. Where n is doubled it is below the length, so that 2 n + 1 fits.
fn has_more(slice: &[i32]) -> bool
    ensures { result ≡ has_more slice.now }
{
    let n = words::number_at(slice, 0);
    if slice.len() <= n {
        return false;
    }
    2 * n + 1 < slice.len()
}

// The statement whose word is at this place, with one slice alone.
// Where words are left over it is given an n out of range, which is 16 as well.
pub(crate) fn alone(
    program: &[i32],
    t: &mut Tables<'_>,
    slice: &[i32],
    at: usize,
) -> Result<Done, Refusal>
    ensures does { Does (state_in t.old) (state_in t.new) result (alone_by program.now at (state_in t.old) slice.now) }
    ensures lent { StillLent t.old t.new }
{
    if has_more(slice) {
        let unfit: [i32; 1] = [-1; 1];
        return statements::simple::alone(program, t, &unfit, at);
    }
    statements::simple::alone(program, t, slice, at)
}

// The number is one that turns a proposal down, after which the next is tried.
pub(crate) fn turns_down(number: usize) -> bool
    ensures { result ≡ turns_down number }
{
    if number == 6 {
        return true;
    }
    if 19 < number {
        return false;
    }
    16 <= number
}
