// One call of a track.
ghost use Rattle.std.specs.Prelude.{◌≡◌, [], ◌∷◌, ◌++◌};
ghost use Rattle.grid.specs.Meanings.{Meaning};
ghost use Rattle.worlds.specs.Journals.{Journal};
ghost use Rattle.tracks.specs.Promises.{Turns};
ghost use Rattle.tracks.specs.Room.{HasRoom, UsesRoom};

use crate::call::Call;
use crate::run::Phase;
use grid::field::Field;
use worlds::drawing::Drawing;
use worlds::event::Event;
use worlds::world::World;

// That a call uses the room there was relates the vector before and after, and room shrinks within a call: no invariant of a type can say it.
impl<F: Field> Phase<F> {
    // A call on a world by itself, and what it tells.
    fn call_world(mut world: World<F>, call: Call) -> (Phase<F>, Event)
        ensures { (m : Meaning) (j : Journal) → Turns m (Phase.Alone world) call j result.0 (j ++ result.1 ∷ []) }
    {
        match call {
            Call::Look(at) => {
                let answer = world.look(at).map_err(|fault| fault.blank);
                (Phase::Alone(world), Event::Asked(at, answer))
            }
            Call::Clear => {
                world.clear();
                (Phase::Alone(world), Event::Cleared)
            }
            Call::Begin(window) => (Phase::Open(world.begin(window)), Event::Begun(window)),
            Call::Row(_) | Call::Finish => (Phase::Alone(world), Event::Passed),
        }
    }

    // A call while a drawing is open, and what it tells. No program can make those on the world itself: they are passed over.
    fn call_drawing(drawing: Drawing<F>, call: Call, journal: &mut Vec<Event>) -> Phase<F>
        requires { HasRoom journal.old }
        ensures law { (m : Meaning) → Turns m (Phase.Open drawing) call journal.old.items result journal.new.items }
        ensures room { UsesRoom journal.old journal.new }
    {
        match call {
            Call::Row(places) => Phase::draw(drawing, places, journal),
            Call::Finish => {
                let (world, fills) = drawing.finish();
                journal.push_reserved(Event::Finished(fills));
                Phase::Alone(world)
            }
            Call::Look(_) | Call::Clear | Call::Begin(_) => {
                journal.push_reserved(Event::Passed);
                Phase::Open(drawing)
            }
        }
    }

    // Makes one call and tells what it told.
    pub(crate) fn turn(self, call: Call, journal: &mut Vec<Event>) -> Phase<F>
        requires { HasRoom journal.old }
        ensures law { (m : Meaning) → Turns m self call journal.old.items result journal.new.items }
        ensures room { UsesRoom journal.old journal.new }
    {
        match self {
            Phase::Alone(world) => {
                let (phase, event) = Phase::call_world(world, call);
                journal.push_reserved(event);
                phase
            }
            Phase::Open(drawing) => Phase::call_drawing(drawing, call, journal),
        }
    }
}
