// A row of an open drawing, as a call of a track.
ghost use Rattle.std.specs.Prelude.{◌≡◌};
ghost use Rattle.grid.specs.Meanings.{Meaning};
ghost use Rattle.tracks.specs.Promises.{Draws};
ghost use Rattle.tracks.specs.Room.{HasRoom, UsesRoom};
ghost use Rattle.worlds.specs.Journals.{Journal};
ghost use Rattle.worlds.specs.Rows.{column_of};

use crate::run::Phase;
use crate::tell::Row;
use grid::cell::Cell;
use grid::field::Field;
use grid::window::{LONGEST_SIDE, Window};
use worlds::drawing::Drawing;
use worlds::event::Event;
use worlds::refusal::RowRefusal;

// The column of a cell of the window. No `From` leads from a `u32` to an index, and a `try_from` would have an error that never comes.
fn column(window: Window, cell: Cell) -> usize
    ensures { result ≡ column_of window cell }
{
    cell.x.abs_diff(window.corner().x) as usize
}

impl<F: Field> Phase<F> {
    // Draws the next row into one of its own with so many places, and tells it. No window is wider than 57, so that many serve for more.
    pub(crate) fn draw(mut drawing: Drawing<F>, places: usize, journal: &mut Vec<Event>) -> Phase<F>
        // Room for what a call tells, and its use: as turn.rt says, no invariant.
        requires { HasRoom journal.old }
        ensures law { (m : Meaning) (before during : Journal) → Draws m places before during drawing journal.old.items result journal.new.items }
        ensures room { UsesRoom journal.old journal.new }
    {
        let window = drawing.window();
        let number = drawing.next_row();
        // No vector: a call that is made must not end for want of memory.
        let mut own = [0u16; LONGEST_SIDE as usize];
        let count = places.min(own.len());
        let heights = &mut own[..count];
        match drawing.row(heights) {
            Ok(()) => {
                let width = usize::from(window.width());
                Row { window, number }.tell(&heights[..width], Event::Wrote, journal);
            }
            Err(RowRefusal::Blank(fault)) => {
                let before = column(window, fault.cell);
                let blank = Event::Asked(fault.cell, Err(fault.blank));
                Row { window, number }.tell(&heights[..before], blank, journal);
            }
            Err(refusal @ (RowRefusal::Full | RowRefusal::Short)) => {
                journal.push_reserved(Event::Refused(refusal));
            }
        }
        Phase::Open(drawing)
    }
}
