// The course of windows that drift over the grid.
ghost use Rattle.std.specs.Prelude.{◌≡◌, ◌*◌, ◌^◌, ◌≤◌, pos, ◌+ℤ◌, unsigned_abs};
ghost use Rattle.grid.specs.Places.{cell_at};
ghost use Rattle.grid.specs.Windows.{corner_of, height_of, width_of};

use grid::cell::Cell;
use grid::window::{LONGEST_SIDE, Window};

// The north-west cell of the first window.
pub const START: Cell = Cell { x: -1000, y: -1000 };

// How many cells east and south of the one before each window lies.
#[derive(Clone, Copy, Debug)]
pub struct Course {
    pub east: u8,
    pub south: u8,
}

// The coordinate to which `i` steps lead from that of the first window.
fn coordinate(i: u16, step: u8) -> i32
    ensures value { result ≡ START.x +ℤ pos (i * step) }
    ensures near { unsigned_abs result ≤ 2 ^ 24 }
{
    START.x + i32::from(i) * i32::from(step)
}

impl Course {
    // Window number `i`, of the largest size. However far a course leads, it stays inside the rim.
    pub fn window(self, i: u16) -> Window
        ensures corner { corner_of result ≡ cell_at START (i * self.east) (i * self.south) }
        ensures wide { width_of result ≡ LONGEST_SIDE }
        ensures high { height_of result ≡ LONGEST_SIDE }
    {
        let corner = Cell {
            x: coordinate(i, self.east),
            y: coordinate(i, self.south),
        };
        Window::new(corner, LONGEST_SIDE, LONGEST_SIDE).unwrap()
    }
}
