// Making windows.
ghost use Rattle.grid.specs.Windows.{Makes};

use super::{LONGEST_SIDE, Window, WindowRefusal};
use crate::cell::Cell;

impl Window {
    // The window of this width and height with this north-west cell, or why there is none.
    pub fn new(corner: Cell, width: u16, height: u16) -> Result<Window, WindowRefusal>
        ensures { Makes corner width height result }
    {
        if width == 0 || width > LONGEST_SIDE || height == 0 || height > LONGEST_SIDE {
            return Err(WindowRefusal::Size);
        }
        if !corner.is_inside() || !corner.cell_at(width - 1, height - 1).is_inside() {
            return Err(WindowRefusal::Rim);
        }
        Ok(Window {
            corner,
            width,
            height,
        })
    }
}
