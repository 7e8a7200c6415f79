// Two tracks on two worlds, side by side.
ghost use Rattle.tracks.specs.Promises.{NearOnly, Replayed};

use crate::replay::Track;
use crate::run::Run;
use grid::field::Field;

// Runs each track on a world of its own. Only ground near a cell can make the two answer it differently.
pub fn compare<F: Field, G: Field>(first: Track<F>, second: Track<G>) -> (Run<F>, Run<G>)
    ensures near { NearOnly (F.Field.meaning first.entry.field) (G.Field.meaning second.entry.field) result.0.journal.items result.1.journal.items }
    ensures one { Replayed first.entry result.0 }
    ensures other { Replayed second.entry result.1 }
{
    let one = first.replay();
    let other = second.replay();
    (one, other)
}
