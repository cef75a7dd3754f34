// How tightly an operator binds.
ghost use Rattle.std.specs.Prelude.{◌≡◌};
ghost use Rattle.text.specs.Reading.{level_of};

// How tightly an operator binds, by its number in document 01.
#[tactic(auto, unfolding(crate::specs::Reading::level_of))]
pub fn level_of(k: usize) -> usize
    ensures { result ≡ level_of k }
{
    match k {
        3 => 5,
        0..=2 => 4,
        4..=9 => 3,
        10 => 2,
        _ => 1,
    }
}
