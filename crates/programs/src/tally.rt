// What the numbers that a program draws or asks add up to.
ghost use Rattle.std.specs.Prelude.{◌≡◌, fold, Some};
ghost use Rattle.programs.specs.Tallies.{and_one, shown};

use std::fmt;

#[derive(Clone, Copy, Debug, Default, PartialEq, Eq)]
pub struct Tally {
    pub cells: u64,
    // The order of the numbers counts.
    pub checksum: u64,
}

impl Tally {
    // The tally with one number more.
    pub fn and(self, number: u16) -> Tally
        ensures { result ≡ and_one self number }
    {
        Tally {
            cells: self.cells.wrapping_add(1),
            checksum: self
                .checksum
                .wrapping_mul(31)
                .wrapping_add(u64::from(number)),
        }
    }

    // The tally with a row of numbers more.
    pub fn and_row(self, row: &[u16]) -> Tally
        ensures { result ≡ fold and_one self row.now }
    {
        row.iter().fold(self, |tally, number| tally.and(*number))
    }
}

impl fmt::Display for Tally {
    ghost output = { λ t. Some (shown t) };

    fn fmt<W: fmt::Write>(&self, f: &mut fmt::Formatter<W>) -> fmt::Result {
        let cells = self.cells;
        let checksum = self.checksum;
        write!(f, "cells {cells}\nchecksum {checksum}")
    }
}
