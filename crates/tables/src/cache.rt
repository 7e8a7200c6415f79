// A cache: a chunk table over any field, with the very meaning of that field.
ghost use Rattle.std.specs.Prelude.{◌≡◌, true, false, not, ◌&&◌, ◌≢◌};
ghost use Rattle.grid.specs.Places.{chunk_of, inside, slot_of};
ghost use Rattle.grid.specs.declared.cell.Cell.{Cell};
ghost use Rattle.grid.specs.declared.chunk.Chunk.{Chunk};
ghost use Rattle.tables.specs.Tables.{Right, holds, stored, touch};

use crate::table::Table;
use crate::through::{ask_through, hold};
use grid::blank::Blank;
use grid::cell::Cell;
use grid::field::Field;

#[derive(Drop)]
pub struct Cache<F: Field> {
    below: F,
    table: Table,
    // Every number of a held chunk is the one for what the field below means.
    ghost right: { Right table (F.Field.meaning below) },
}

impl<F: Field> Cache<F> {
    ghost use Rattle.tables.specs.Caches.{below_of, cache_meaning, table_of};

    pub fn new(below: F) -> Cache<F>
        ensures field { below_of result ≡ below }
        ensures empty { (k : Chunk) → holds (table_of result) k ≡ false }
    {
        Cache {
            below,
            table: Table::new(),
        }
    }

    // Sees to it that the chunk of a cell inside the rim is held, and says whether that took a fill.
    pub fn hold(&mut self, at: Cell) -> bool
        ensures filled { result ≡ (inside at && not (holds (table_of self.old) (chunk_of at))) }
        ensures same { cache_meaning self.new ≡ cache_meaning self.old }
        ensures held { (k : Chunk) → holds (table_of self.new) k ≡ touch at (holds (table_of self.old)) k }
        ensures others { (c : Cell) → (slot_of (chunk_of c) ≢ slot_of (chunk_of at)) → stored (table_of self.new) c ≡ stored (table_of self.old) c }
        ensures beyond { inside at ≡ false → self.new ≡ self.old }
        ensures stays { holds (table_of self.old) (chunk_of at) ≡ true → self.new ≡ self.old }
    {
        at.is_inside() && hold(&mut self.below, &mut self.table, at)
    }

    // Empties the table.
    #[tactic(auto, using(crate::proofs::Filling::right_empty))]
    pub fn clear(&mut self)
        ensures field { below_of self.new ≡ below_of self.old }
        ensures empty { (k : Chunk) → holds (table_of self.new) k ≡ false }
        ensures numbers { (c : Cell) → stored (table_of self.new) c ≡ stored (table_of self.old) c }
    {
        self.table.clear();
    }
}

impl<F: Field> Field for Cache<F> {
    ghost use Rattle.tables.specs.Caches.{Through, cache_lawful, cache_meaning};

    ghost meaning = { cache_meaning };

    ghost lawful = { λ s. cache_lawful F.Field.meaning (λ _. Unit {0}) (λ f _. F.Field.lawful f) s tt };

    fn ask(&mut self, at: Cell) -> Result<u16, Blank>
        ensures answer { result ≡ cache_meaning self.old at }
        ensures same { cache_meaning self.new ≡ cache_meaning self.old }
        ensures through { Through at self.old self.new }
    {
        ask_through(&mut self.below, &mut self.table, at)
    }
}
