// Parts of a text, and bytes stored in a row.
ghost use Rattle.std.specs.Prelude.{◌≡◌, ◌∷◌, [], length};
ghost use Rattle.lister.specs.Bytes.{up_to, past, begins, Puts};

use words::{part_from, part_to};

// How many bytes stand before the first b.
fn before(s: &[u8], b: u8) -> usize
    ensures { result ≡ length (up_to b s.now) }
{
    s.iter().position(|x| *x == b).unwrap_or(s.len())
}

// The bytes before the first b, all of them where there is none.
#[tactic(auto, using(crate::proofs::ByteLaws::up_to_part))]
pub fn up_to(s: &[u8], b: u8) -> &[u8]
    ensures { result.now ≡ up_to b s.now }
{
    part_to(s, before(s, b))
}

// The bytes after the first b, none where there is none.
#[tactic(auto, using(crate::proofs::ByteLaws::after_first))]
pub fn after(s: &[u8], b: u8) -> &[u8]
    ensures { result.now ≡ past b s.now }
{
    part_from(s, before(s, b) + 1)
}

// The text begins with the name.
#[tactic(auto, using(crate::proofs::ByteLaws::begins_pointwise))]
pub fn begins_with(s: &[u8], name: &[u8]) -> bool
    ensures { result ≡ begins name.now s.now }
{
    s.starts_with(name)
}

// A byte stored at `at`, and the place after it; past the end nothing is stored and the place stays.
#[tactic(auto, using(crate::proofs::BufferLaws::one_byte))]
pub fn put(out: &mut [u8], at: usize, b: u8) -> usize
    ensures { Puts out.old at (b ∷ []) out.new result }
{
    if at < out.len() {
        out[at] = b;
        return at + 1;
    }
    at
}

// The bytes of s stored from `at` on.
#[tactic(auto, using(crate::proofs::BufferLaws::writing))]
pub fn put_all(out: &mut [u8], at: usize, s: &[u8]) -> usize
    ensures { Puts out.old at s.now out.new result }
{
    let mut to = at;
    for b in s {
        to = put(out, to, *b);
    }
    to
}
