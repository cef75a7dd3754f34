// The cells lent to be changed, beside what is kept, lent to be read.
ghost use Rattle.std.specs.Prelude.{◌≡◌};
ghost use Rattle.tables.specs.Cells.{put_cell};
ghost use Rattle.tables.specs.Lending.{seen, cells_moved, StillMoved};

use super::cells::write_cell;
use crate::{Cell, Moving, View};

impl Moving<'_> {
    // The tables, to be read.
    pub fn view(&self) -> View<'_>
        ensures cells { seen result ≡ cells_moved self.now }
        ensures kept { result.constraints.now ≡ self.now.constraints.now }
    {
        View {
            environment: self.environment,
            heap: self.heap,
            constraints: self.constraints,
        }
    }

    // Another cell at a location; nothing is written where there is no such location.
    pub fn put(&mut self, l: usize, c: Cell)
        ensures cells { cells_moved self.new ≡ put_cell (cells_moved self.old) l c }
        ensures rest { StillMoved self.old self.new }
    {
        write_cell(self.environment, self.heap, l, c);
    }
}
