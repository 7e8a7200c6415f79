// The numbers of a window.
ghost use Rattle.std.specs.Prelude.{◌≡◌};
ghost use Rattle.grid.specs.Windows.{corner_of, height_of, width_of};

use super::Window;
use crate::cell::Cell;

impl Window {
    // The north-west cell.
    pub fn corner(&self) -> Cell
        ensures { result ≡ corner_of self.now }
    {
        self.corner
    }

    pub fn width(&self) -> u16
        ensures { result ≡ width_of self.now }
    {
        self.width
    }

    pub fn height(&self) -> u16
        ensures { result ≡ height_of self.now }
    {
        self.height
    }
}
