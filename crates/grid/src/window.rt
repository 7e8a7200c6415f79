// Windows: the rectangles of the grid that are drawn.
ghost use Rattle.std.specs.Prelude.{◌≡◌, ◌-◌, true};
ghost use Rattle.grid.specs.Places.{Side, cell_at, inside};

use crate::cell::Cell;

mod cells;
mod make;
mod parts;
pub mod refusal;

pub use refusal::WindowRefusal;

// The longest side of a window. 57 cells in a row touch at most 8 chunks, so the chunks of one window have different slots.
pub const LONGEST_SIDE: u16 = 57;

// A rectangle by its north-west cell. Every window that exists has sides from 1 to 57 and lies wholly inside the rim.
#[derive(Clone, Copy, Debug, PartialEq, Eq)]
pub struct Window {
    corner: Cell,
    width: u16,
    height: u16,
    ghost wide: { Side width },
    ghost high: { Side height },
    ghost first: { inside corner ≡ true },
    ghost last: { inside (cell_at corner (width - 1) (height - 1)) ≡ true },
}
