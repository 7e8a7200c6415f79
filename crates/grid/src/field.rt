// Fields: what gives each cell of the grid a height or a blank.
ghost use Rattle.std.specs.Prelude.{◌≡◌};
ghost use Rattle.grid.specs.Meanings.{Lawful, Meaning};

use crate::blank::Blank;
use crate::cell::Cell;

pub trait Field {
    // What the field means: a function of the cell alone.
    ghost meaning: { Self → Meaning };

    // What the field means at this cell. To ask changes no meaning.
    fn ask(&mut self, at: Cell) -> Result<u16, Blank>
        ensures answer { result ≡ meaning self.old at }
        ensures same { meaning self.new ≡ meaning self.old };

    // What every field owes: blank beyond the rim, and heights from 0 to 65,534.
    ghost lawful: { (s : Self) → Lawful (meaning s) };
}
