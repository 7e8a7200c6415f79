// What a row tells the journal.
ghost use Rattle.std.specs.Prelude.{◌≡◌, ◌<◌, [], ◌∷◌, ◌++◌};
ghost use Rattle.grid.specs.Windows.{height_of};
ghost use Rattle.tracks.specs.Room.{HasRoom, UsesRoom};
ghost use Rattle.tracks.specs.Runs.{heights_told};

use grid::window::Window;
use worlds::event::Event;

// A row that a window has.
#[derive(Clone, Copy)]
pub(crate) struct Row {
    pub(crate) window: Window,
    pub(crate) number: u16,
    ghost within: { number < height_of window },
}

impl Row {
    // Tells that its cells, from the first one on, have these heights, and then one event more.
    pub(crate) fn tell(self, heights: &[u16], last: Event, journal: &mut Vec<Event>)
        // Room for what a call tells, and its use: as turn.rt says, no invariant.
        requires { HasRoom journal.old }
        ensures told { journal.new.items ≡ journal.old.items ++ (heights_told self.window self.number heights.now ++ last ∷ []) }
        ensures room { UsesRoom journal.old journal.new }
    {
        for (column, height) in (0..self.window.width()).zip(heights) {
            let Some(at) = self.window.cell(column, self.number) else {
                unreachable()
            };
            journal.push_reserved(Event::Asked(at, Ok(*height)));
        }
        journal.push_reserved(last);
    }
}
