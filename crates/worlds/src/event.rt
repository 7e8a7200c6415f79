// What happens to a world, event by event. A list of these, in the order in which they happened, is a journal.
use crate::refusal::RowRefusal;
use grid::blank::Blank;
use grid::cell::Cell;
use grid::window::Window;

#[derive(Clone, Copy, Debug, PartialEq, Eq)]
pub enum Event {
    // A look or a row asked this cell, and this came.
    Asked(Cell, Result<u16, Blank>),
    // The table was emptied.
    Cleared,
    // A drawing of this window began.
    Begun(Window),
    // A row was written whole.
    Wrote,
    // A row was refused and asked nothing.
    Refused(RowRefusal),
    // The drawing ended, with so many fills.
    Finished(u32),
    // A call of a track could not be made and was passed over.
    Passed,
}
