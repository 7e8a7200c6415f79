// Worlds: a field behind a chunk table of its own.
ghost use Rattle.std.specs.Prelude.{◌≡◌, true, false, not, ◌&&◌, ◌≢◌, [], ◌∷◌, ◌++◌};
ghost use Rattle.grid.specs.declared.cell.Cell.{Cell};
ghost use Rattle.grid.specs.declared.chunk.Chunk.{Chunk};
ghost use Rattle.grid.specs.Meanings.{Meaning};
ghost use Rattle.grid.specs.Places.{chunk_of, inside, slot_of};
ghost use Rattle.tables.specs.Caches.{Through};
ghost use Rattle.tables.specs.Tables.{stored, touch};
ghost use Rattle.worlds.specs.Journals.{Journal};
ghost use Rattle.worlds.specs.Refusals.{looked};
ghost use Rattle.worlds.specs.Worlds.{Fits, below_of, cache_of, held_by, table_of, world_meaning};
ghost use Rattle.worlds.specs.declared.event.Event.TheVariants.{Asked, Cleared};

use crate::refusal::BlankFault;
use grid::cell::Cell;
use grid::field::Field;
use tables::cache::Cache;

// The table is that of a cache, which keeps it right. What the world holds follows from its calls, and no ghost field keeps these,
// so that each call carries the account on by a clause of its own, `history`.
#[derive(Drop)]
pub struct World<F: Field> {
    cache: Cache<F>,
}

impl<F: Field> World<F> {
    // A world on this field, with an empty table.
    pub fn open(below: F) -> World<F>
        ensures field { below_of result ≡ below }
        ensures empty { (k : Chunk) → held_by result k ≡ false }
        ensures history { Fits (F.Field.meaning below) result [] }
    {
        World {
            cache: Cache::new(below),
        }
    }

    // The height of a cell.
    pub fn look(&mut self, at: Cell) -> Result<u16, BlankFault>
        ensures answer { result ≡ looked at (world_meaning self.old at) }
        ensures same { world_meaning self.new ≡ world_meaning self.old }
        ensures table { Through at (cache_of self.old) (cache_of self.new) }
        ensures history { (m : Meaning) (j : Journal) → Fits m self.old j → Fits m self.new (j ++ Asked at (m at) ∷ []) }
    {
        let answer = self.cache.ask(at);
        answer.map_err(|blank| BlankFault { cell: at, blank })
    }

    // Sees to it that the chunk of a cell inside the rim is held, and says whether that took a fill.
    pub(crate) fn hold(&mut self, at: Cell) -> bool
        ensures filled { result ≡ (inside at && not (held_by self.old (chunk_of at))) }
        ensures same { world_meaning self.new ≡ world_meaning self.old }
        ensures held { (k : Chunk) → held_by self.new k ≡ touch at (held_by self.old) k }
        ensures others { (c : Cell) → (slot_of (chunk_of c) ≢ slot_of (chunk_of at)) → stored (table_of self.new) c ≡ stored (table_of self.old) c }
        ensures beyond { inside at ≡ false → self.new ≡ self.old }
        ensures stays { held_by self.old (chunk_of at) ≡ true → self.new ≡ self.old }
    {
        self.cache.hold(at)
    }

    // Empties the table.
    pub fn clear(&mut self)
        ensures field { below_of self.new ≡ below_of self.old }
        ensures empty { (k : Chunk) → held_by self.new k ≡ false }
        ensures numbers { (c : Cell) → stored (table_of self.new) c ≡ stored (table_of self.old) c }
        ensures history { (m : Meaning) (j : Journal) → Fits m self.old j → Fits m self.new (j ++ Cleared ∷ []) }
    {
        self.cache.clear();
    }
}
