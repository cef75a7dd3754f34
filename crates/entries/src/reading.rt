// An entry is read from the part of the list that begins at its first word.
ghost use Rattle.std.specs.Prelude.{◌≡◌};
ghost use Rattle.program.specs.Told.{told};
ghost use Rattle.rules.specs.Entries.{read_entry};

use program::reading::{read_expression, read_path, unfit};

// An L and one of 20 to 23.
pub fn read_entry(p: &[i32]) -> Result<usize, usize>
    ensures { result ≡ told (read_entry p.now) }
{
    let left = read_path(p)?;
    let q = words::part_last(p, left);
    let form = words::number_at(q, 0);
    if form < 20 {
        return unfit(q);
    }
    if 23 < form {
        return unfit(q);
    }
    read_expression(q, 1, false)
}
