// Asking a field through a chunk table: what a cache does, for a field and a table that stay the caller's.
ghost use Rattle.std.specs.Prelude.{◌≡◌, true, not, ◌&&◌, ◌≢◌};
ghost use Rattle.grid.specs.Places.{chunk_of, inside, slot_of};
ghost use Rattle.grid.specs.declared.cell.Cell.{Cell};
ghost use Rattle.grid.specs.declared.chunk.Chunk.{Chunk};
ghost use Rattle.tables.specs.Tables.{Passes, Right, holding, holds, mark, stored};

use crate::table::Table;
use grid::blank::Blank;
use grid::cell::Cell;
use grid::field::Field;

// Asks all 64 cells of the chunk in which this cell lies, and overwrites its slot.
fn fill<F: Field>(below: &mut F, table: &mut Table, at: Cell)
    ensures same { F.Field.meaning below.new ≡ F.Field.meaning below.old }
    ensures held { (k : Chunk) → holds table.new k ≡ holding (chunk_of at) (holds table.old) k }
    ensures fresh { (c : Cell) → chunk_of c ≡ chunk_of at → stored table.new c ≡ mark (F.Field.meaning below.old c) }
    ensures others { (c : Cell) → (slot_of (chunk_of c) ≢ slot_of (chunk_of at)) → stored table.new c ≡ stored table.old c }
{
    for place in 0..64u8 {
        let cell = at.chunk_cell(place);
        let height = below.ask(cell).ok();
        table.put(cell, height);
    }
    table.label(at.chunk());
}

// Sees to it that the chunk of this cell is held, and says whether that took a fill.
pub fn hold<F: Field>(below: &mut F, table: &mut Table, at: Cell) -> bool
    ensures filled { result ≡ not (holds table.old (chunk_of at)) }
    ensures same { F.Field.meaning below.new ≡ F.Field.meaning below.old }
    ensures held { (k : Chunk) → holds table.new k ≡ holding (chunk_of at) (holds table.old) k }
    ensures right { Right table.old (F.Field.meaning below.old) → Right table.new (F.Field.meaning below.old) }
    ensures others { (c : Cell) → (slot_of (chunk_of c) ≢ slot_of (chunk_of at)) → stored table.new c ≡ stored table.old c }
    ensures stays { holds table.old (chunk_of at) ≡ true → (below.new ≡ below.old) × (table.new ≡ table.old) }
{
    if table.has(at.chunk()) {
        return false;
    }
    fill(below, table, at);
    true
}

// What the field answers, from the table where that has a height.
pub fn ask_through<F: Field>(below: &mut F, table: &mut Table, at: Cell) -> Result<u16, Blank>
    ensures answer { Right table.old (F.Field.meaning below.old) → result ≡ F.Field.meaning below.old at }
    ensures same { F.Field.meaning below.new ≡ F.Field.meaning below.old }
    ensures right { Right table.old (F.Field.meaning below.old) → Right table.new (F.Field.meaning below.old) }
    ensures passes { Passes at below.old table.old below.new table.new }
{
    if !at.is_inside() {
        return Err(Blank::new(at));
    }
    let _ = hold(below, table, at);
    match table.get(at) {
        Some(height) => Ok(height),
        None => below.ask(at),
    }
}

// The same, and whether that took a fill.
pub fn ask_and_tell<F: Field>(
    below: &mut F,
    table: &mut Table,
    at: Cell,
) -> (Result<u16, Blank>, bool)
    ensures answer { Right table.old (F.Field.meaning below.old) → result.0 ≡ F.Field.meaning below.old at }
    ensures filled { result.1 ≡ (inside at && not (holds table.old (chunk_of at))) }
    ensures same { F.Field.meaning below.new ≡ F.Field.meaning below.old }
    ensures right { Right table.old (F.Field.meaning below.old) → Right table.new (F.Field.meaning below.old) }
    ensures passes { Passes at below.old table.old below.new table.new }
{
    let filled = at.is_inside() && !table.has(at.chunk());
    (ask_through(below, table, at), filled)
}
