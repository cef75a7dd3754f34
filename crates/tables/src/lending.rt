// The three tables as they are lent: to be read, or to be changed.
ghost use Rattle.std.specs.Prelude.{◌≡◌};
ghost use Rattle.tables.specs.Values.{slot_of};
ghost use Rattle.tables.specs.Cells.{cell_at, put_cell};
ghost use Rattle.tables.specs.Lending.{seen, cells_in, OnlyCells};

use super::cells::{read_cell, slot_of, write_cell};
use crate::{Cell, Tables, Value, View};

impl View<'_> {
    // The cell at a location, absent where there is no such location.
    pub fn cell(&self, l: usize) -> Cell
        ensures { result ≡ cell_at (seen self.now) l }
    {
        read_cell(self.environment, self.heap, l)
    }

    // What it holds.
    pub fn value(&self, l: usize) -> Option<Value>
        ensures { result ≡ slot_of (cell_at (seen self.now) l) }
    {
        slot_of(self.cell(l))
    }
}

impl Tables<'_> {
    // The tables, to be read.
    pub fn view(&self) -> View<'_>
        ensures cells { seen result ≡ cells_in self.now }
        ensures kept { result.constraints.now ≡ self.now.constraints.now }
    {
        View {
            environment: self.environment,
            heap: self.heap,
            constraints: self.constraints,
        }
    }

    // Another cell at a location; nothing is written where there is no such location.
    pub fn put(&mut self, l: usize, c: Cell)
        ensures cells { cells_in self.new ≡ put_cell (cells_in self.old) l c }
        ensures rest { OnlyCells self.old self.new }
    {
        write_cell(self.environment, self.heap, l, c);
    }
}
