// A mark of one bit for each number: that of l is bit l % 64 of the word l / 64. Nothing here asks anything of its caller.
ghost use Rattle.std.specs.Prelude.{◌≡◌};
ghost use Rattle.words.specs.Bits.{marked, with_mark};

// Whether l is marked; past the end nothing is.
pub fn is_marked(s: &[u64], l: usize) -> bool
    ensures { result ≡ marked s.now l }
{
    let i = l / 64;
    if s.len() <= i {
        return false;
    }
    (s[i] >> (l % 64)) % 2 == 1
}

// Marks l; past the end nothing is marked.
pub fn mark(s: &mut [u64], l: usize)
    ensures { s.new ≡ with_mark s.old l }
{
    let i = l / 64;
    if i < s.len() {
        s[i] = s[i] | (1 << (l % 64));
    }
}
