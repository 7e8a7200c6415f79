// A call on a world, or on the drawing that it is in.
use grid::cell::Cell;
use grid::window::Window;

#[derive(Clone, Copy, Debug)]
pub enum Call {
    Look(Cell),
    Clear,
    Begin(Window),
    // The next row, into a caller's row with so many places.
    Row(usize),
    Finish,
}
