// Drawings: a window of a world, row by row.
ghost use Rattle.std.specs.Prelude.{◌≡◌, ◌<◌, ◌≤◌, true, ◌⊎◌, [], ◌∷◌, ◌++◌, length, Err};
ghost use Rattle.grid.specs.declared.chunk.Chunk.{Chunk};
ghost use Rattle.grid.specs.Counts.{Counts};
ghost use Rattle.grid.specs.Meanings.{Meaning};
ghost use Rattle.grid.specs.Windows.{height_of, width_of};
ghost use Rattle.tables.specs.Caches.{Through};
ghost use Rattle.worlds.specs.Drawings.{GoesOn, Underway, fills_of, next_of, window_of, world_of};
ghost use Rattle.worlds.specs.Journals.{Held, Journal, Missing, OfWindow, Touched};
ghost use Rattle.worlds.specs.Refusals.{looked};
ghost use Rattle.worlds.specs.Rows.{Answers, Past, Placed, next_after, told_by};
ghost use Rattle.worlds.specs.Worlds.{Fits, cache_of, held_by, world_meaning};
ghost use Rattle.worlds.specs.declared.event.Event.TheVariants.{Asked, Begun, Finished};
ghost use Rattle.worlds.specs.declared.refusal.RowRefusal.TheVariants.{Full, Short};

use crate::refusal::{BlankFault, RowRefusal};
use crate::world::World;
use grid::cell::Cell;
use grid::field::Field;
use grid::window::Window;

mod parts;

#[derive(Drop)]
pub struct Drawing<F: Field> {
    world: World<F>,
    window: Window,
    // The row to be written next, counted from 0.
    next: u16,
    // How many chunks the world's table took in since the drawing began. There are at most 64.
    fills: u32,
}

impl<F: Field> World<F> {
    // A drawing of the window. The world stays in it until it is finished.
    pub fn begin(self, window: Window) -> Drawing<F>
        ensures world { world_of result ≡ self }
        ensures start { (window_of result ≡ window) × ((next_of result ≡ 0) × (fills_of result ≡ 0)) }
        ensures history { (m : Meaning) (j : Journal) → Fits m self j → Underway m result j [] }
    {
        Drawing {
            world: self,
            window,
            next: 0,
            fills: 0,
        }
    }
}

impl<F: Field> Drawing<F> {
    // The height of one cell of the window.
    fn ask(&mut self, at: Cell) -> Result<u16, BlankFault>
        ensures answer { result ≡ looked at (world_meaning (world_of self.old) at) }
        ensures table { Through at (cache_of (world_of self.old)) (cache_of (world_of self.new)) }
        ensures next { next_of self.new ≡ next_of self.old }
        ensures goes { OfWindow (window_of self.old) at → (m : Meaning) → GoesOn self.old (Asked at (m at) ∷ []) self.new }
    {
        let filled = self.world.hold(at);
        self.fills = self.fills.saturating_add(u32::from(filled));
        self.world.look(at)
    }

    // Writes the next row as far as its cells have heights.
    fn write(&mut self, out: &mut [u16]) -> Result<(), RowRefusal>
        requires { (next_of self.old < height_of (window_of self.old)) × (width_of (window_of self.old) ≤ length out.old) }
        ensures placed { Placed (window_of self.old) (next_of self.old) (length out.old) result }
        ensures answer { Answers (world_meaning (world_of self.old)) (window_of self.old) (next_of self.old) result out.new }
        ensures past { Past (window_of self.old) result out.old out.new }
        ensures next { next_of self.new ≡ next_after result (next_of self.old) }
        ensures goes { (m : Meaning) → GoesOn self.old (told_by m (window_of self.old) (next_of self.old) result) self.new }
    {
        let window = self.window;
        let row = self.next;
        for (column, place) in out.iter_mut().enumerate() {
            // The caller's row may be longer than the window is wide. The walk ends before a column that would not fit.
            // A `zip` with the columns was tried: after an adapter of `iter_mut` a proof knows nothing of the places.
            let Some(at) = window.cell(column as u16, row) else {
                break;
            };
            *place = self.ask(at)?;
        }
        self.next += 1;
        Ok(())
    }

    // Writes the next row of the window into `out`, and leaves what lies past it.
    pub fn row(&mut self, out: &mut [u16]) -> Result<(), RowRefusal>
        // When each refusal comes, and where a blank lies.
        ensures placed { Placed (window_of self.old) (next_of self.old) (length out.old) result }
        // The heights and the blank are those of the field. What lies past them is as it was.
        ensures answer { Answers (world_meaning (world_of self.old)) (window_of self.old) (next_of self.old) result out.new }
        ensures past { Past (window_of self.old) result out.old out.new }
        ensures next { next_of self.new ≡ next_after result (next_of self.old) }
        // A refusal for want of rows or of room leaves everything as it was.
        ensures stays { (result ≡ Err Full) ⊎ (result ≡ Err Short) → (self.new ≡ self.old) × (out.new ≡ out.old) }
        // What the world holds, and the fills.
        ensures goes { (m : Meaning) → GoesOn self.old (told_by m (window_of self.old) (next_of self.old) result) self.new }
        ensures history { (m : Meaning) (before during : Journal) → Underway m self.old before during → Underway m self.new before (during ++ told_by m (window_of self.old) (next_of self.old) result) }
    {
        if self.next >= self.window.height() {
            return Err(RowRefusal::Full);
        }
        if out.len() < usize::from(self.window.width()) {
            return Err(RowRefusal::Short);
        }
        self.write(out)
    }

    // Gives the world back, and how many chunks its table took in since the drawing began.
    pub fn finish(self) -> (World<F>, u32)
        ensures world { result.0 ≡ world_of self }
        ensures fills { result.1 ≡ fills_of self }
        // The premise of the others is the account, as `World` carries it on.
        // Each chunk that the drawing touched and its world lacked at the begin, once. All that it touched are held.
        ensures exact { (m : Meaning) (before during : Journal) → Underway m self before during → Counts result.1 (Missing (Held before) during) }
        ensures holds { (m : Meaning) (before during : Journal) → Underway m self before during → (k : Chunk) → Touched during k → held_by result.0 k ≡ true }
        ensures few { (m : Meaning) (before during : Journal) → Underway m self before during → result.1 ≤ 64 }
        ensures history { (m : Meaning) (before during : Journal) → Underway m self before during → Fits m result.0 (before ++ Begun (window_of self) ∷ (during ++ Finished result.1 ∷ [])) }
    {
        (self.world, self.fills)
    }
}
