// Tracks, run on worlds of their own.
ghost use Rattle.tracks.specs.Promises.{Replayed};

use crate::call::Call;
use crate::run::{Phase, Run};
use grid::field::Field;
use grid::window::LONGEST_SIDE;
use worlds::event::Event;
use worlds::world::World;

// The greatest number of events that one call tells: the cells of a row, and that it is written.
pub const MOST_EVENTS: usize = LONGEST_SIDE as usize + 1;

// Calls that are made one after another on a world of this field.
#[derive(Drop)]
pub struct Track<'a, F> {
    pub field: F,
    pub calls: &'a [Call],
    // The journal is made in this vector, which grows as it must.
    pub room: Vec<Event>,
}

impl<F: Field> Track<'_, F> {
    // Opens the world and makes the calls. Before each of them there is room for all that it can tell,
    // so that no call that was made goes untold, and want of memory ends the run before a call.
    pub fn replay(self) -> Run<F>
        ensures { Replayed self.entry result }
    {
        let Track { field, calls, room } = self;
        let mut journal = room;
        journal.clear();
        let mut phase = Phase::Alone(World::open(field));
        for (done, call) in calls.iter().enumerate() {
            if journal.reserve(MOST_EVENTS).is_err() {
                return Run {
                    phase,
                    done,
                    journal,
                };
            }
            phase = phase.turn(*call, &mut journal);
        }
        Run {
            phase,
            done: calls.len(),
            journal,
        }
    }
}
