// Cells of the endless grid.
ghost use Rattle.std.specs.Prelude.{◌≡◌, ◌%◌, ◌<◌, true, pos, ◌+ℤ◌, ◌*ℤ◌, Decides};
ghost use Rattle.grid.specs.Places.{Before, LiesIn, cell_at, cell_in, chunk_of, distance, eighth, inside, place_of};

use crate::chunk::{Chunk, among_64};

// No coordinate of a cell inside the rim is further than this from 0.
pub const RIM: u32 = 1_000_000_000;

#[derive(Clone, Copy, Debug, PartialEq, Eq)]
pub struct Cell {
    pub x: i32,
    pub y: i32,
}

// The coordinate number `place`, modulo 8, of the eight in the chunk of this one. The chunks at both ends of the grid are whole, so no sum overflows.
fn of_chunk(coordinate: i32, place: u8) -> i32
    ensures { result ≡ (pos 8 *ℤ eighth coordinate) +ℤ pos (place % 8) }
{
    (coordinate >> 3) * 8 + i32::from(place % 8)
}

impl Cell {
    // Whether this cell comes before `other` in reading order: by rows, and in one row from west to east.
    pub fn precedes(self, other: Cell) -> bool
        ensures { Decides result (Before self other) }
    {
        (self.y, self.x) < (other.y, other.x)
    }

    // The greater of the differences in x and in y.
    pub fn distance(self, other: Cell) -> u32
        ensures { result ≡ distance self other }
    {
        self.x.abs_diff(other.x).max(self.y.abs_diff(other.y))
    }

    // Whether both coordinates lie from minus the rim to the rim.
    pub fn is_inside(self) -> bool
        ensures { result ≡ inside self }
    {
        self.x.unsigned_abs() <= RIM && self.y.unsigned_abs() <= RIM
    }

    // The chunk in which this cell lies. A shift to the right divides rounding down, on both sides of 0.
    pub fn chunk(self) -> Chunk
        ensures value { result ≡ chunk_of self }
        ensures lies { LiesIn self result }
    {
        Chunk {
            x: self.x >> 3,
            y: self.y >> 3,
        }
    }

    // The place of this cell in its chunk, in reading order from 0 to 63.
    pub fn place(self) -> usize
        ensures value { result ≡ place_of self }
        ensures bound { result < 64 }
    {
        among_64(self.x, self.y)
    }

    // The cell at a place of the chunk in which this cell lies. Places past 63 go round.
    pub fn chunk_cell(self, place: u8) -> Cell
        ensures { result ≡ cell_in (chunk_of self) (place % 64) }
    {
        Cell {
            x: of_chunk(self.x, place),
            y: of_chunk(self.y, place / 8),
        }
    }

    // The cell so many columns east and rows south. From a cell inside the rim no sum overflows.
    pub(crate) fn cell_at(self, columns: u16, rows: u16) -> Cell
        requires { inside self ≡ true }
        ensures { result ≡ cell_at self columns rows }
    {
        Cell {
            x: self.x + i32::from(columns),
            y: self.y + i32::from(rows),
        }
    }
}
