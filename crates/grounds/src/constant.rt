// A constant ground: one height everywhere inside the rim.
ghost use Rattle.std.specs.Prelude.{◌≡◌};
ghost use Rattle.grounds.specs.Constants.{constant, level_of};
ghost use Rattle.grounds.specs.GroundLaws.{constant_lawful};

use grid::blank::Blank;
use grid::cell::Cell;
use grid::field::Field;

// The constant that is blank everywhere. It stays a number, since users give it as one.
pub const BLANK: u16 = 65_535;

#[derive(Clone, Copy, Debug)]
pub struct Constant {
    height: u16,
}

impl Constant {
    pub fn new(height: u16) -> Constant
        ensures { level_of result ≡ height }
    {
        Constant { height }
    }
}

impl Field for Constant {
    ghost meaning = { λ s. constant (level_of s) };

    ghost lawful = { λ s. constant_lawful (level_of s) };

    fn ask(&mut self, at: Cell) -> Result<u16, Blank> {
        if at.is_inside() && self.height < BLANK {
            Ok(self.height)
        } else {
            Err(Blank::new(at))
        }
    }
}
