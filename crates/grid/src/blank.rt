// Blanks: why a cell has no height.
ghost use Rattle.std.specs.Prelude.{◌≡◌};
ghost use Rattle.grid.specs.Meanings.{own_blank, risen};

use crate::cell::Cell;

#[derive(Clone, Copy, Debug, PartialEq, Eq)]
pub struct Blank {
    // The cell at which the ground has no height.
    pub place: Cell,
    // How many rule layers the blank came up through; it stops at 255.
    pub rise: u8,
}

impl Blank {
    // The blank of a cell that has no height by itself.
    pub fn new(place: Cell) -> Blank
        ensures { result ≡ own_blank place }
    {
        Blank { place, rise: 0 }
    }

    // The same blank one rule layer further up.
    pub fn raise(self) -> Blank
        ensures { result ≡ risen self }
    {
        Blank {
            place: self.place,
            rise: self.rise.saturating_add(1),
        }
    }
}
