// The cells and the chunks of a window.
ghost use Rattle.std.specs.Prelude.{◌≡◌, ℕ, ◌+◌, ◌/◌};
ghost use Rattle.grid.specs.Counts.{Counts};
ghost use Rattle.grid.specs.Places.{rest};
ghost use Rattle.grid.specs.Windows.{Touches, cell_if_any};

use super::Window;
use crate::cell::Cell;

// How many chunks of a row or column the `n` coordinates from `first` on lie in.
fn chunks_along(first: i32, n: u16) -> u32
    ensures { result ≡ (rest first + n + 7) / 8 }
{
    (first.rem_euclid(8).cast_unsigned() + u32::from(n) + 7) / 8
}

impl Window {
    // The cell in this column and row, counted from 0, if the window has it.
    pub fn cell(&self, column: u16, row: u16) -> Option<Cell>
        ensures { result ≡ cell_if_any self.now column row }
    {
        if column < self.width && row < self.height {
            Some(self.corner.cell_at(column, row))
        } else {
            None
        }
    }

    // How many chunks the window's cells lie in.
    pub fn chunk_count(&self) -> u32
        ensures counted { Counts result (Touches self.now) }
        ensures only { (n : ℕ) → Counts n (Touches self.now) → n ≡ result }
    {
        chunks_along(self.corner.y, self.height) * chunks_along(self.corner.x, self.width)
    }
}
