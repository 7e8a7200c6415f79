// Which window is drawn, and how far.
ghost use Rattle.std.specs.Prelude.{◌≡◌};
ghost use Rattle.worlds.specs.Drawings.{next_of, window_of};

use super::Drawing;
use grid::field::Field;
use grid::window::Window;

impl<F: Field> Drawing<F> {
    pub fn window(&self) -> Window
        ensures { result ≡ window_of self.now }
    {
        self.window
    }

    // The number of the row to be written next, which is the window's height once all are written.
    pub fn next_row(&self) -> u16
        ensures { result ≡ next_of self.now }
    {
        self.next
    }
}
