// A chunk table: 64 slots, each empty or with the address of one chunk and its 64 numbers.
ghost use Rattle.std.specs.Prelude.{◌≡◌, ◌<◌, false, ◌≢◌};
ghost use Rattle.grid.specs.declared.cell.Cell.{Cell};
ghost use Rattle.grid.specs.declared.chunk.Chunk.{Chunk};
ghost use Rattle.tables.specs.Tables.{holding, holds, index_of, stored, number_for, height_for};

use grid::cell::Cell;
use grid::chunk::Chunk;

// What stands in a table for a blank. No height is as great. The array keeps plain numbers, as the project wants them; whoever asks gets an Option.
pub const MARK: u16 = 65_535;

// The heights are one array of fixed size, without the heap, as the project wants them; so the addresses stand beside it.
#[derive(Drop)]
pub struct Table {
    // The numbers of the chunk in slot s stand from 64 s on, in reading order.
    heights: [u16; 4096],
    chunks: [Option<Chunk>; 64],
}

// Where the number of a cell stands.
fn index(at: Cell) -> usize
    ensures value { result ≡ index_of at }
    ensures bound { result < 4096 }
{
    64 * at.chunk().slot() + at.place()
}

impl Table {
    #[tactic(auto, using(crate::proofs::Filling::none_held, crate::proofs::Filling::unwritten))]
    pub fn new() -> Table
        ensures empty { (k : Chunk) → holds result k ≡ false }
        ensures marked { (c : Cell) → stored result c ≡ 65535 }
    {
        Table {
            heights: [65_535u16; 4096],
            chunks: [None; 64],
        }
    }

    #[tactic(auto, using(crate::proofs::Filling::none_held))]
    pub fn clear(&mut self)
        ensures empty { (k : Chunk) → holds self.new k ≡ false }
        ensures numbers { (c : Cell) → stored self.new c ≡ stored self.old c }
    {
        self.chunks = [None; 64];
    }

    // Whether the slot of this chunk has its address.
    pub fn has(&self, chunk: Chunk) -> bool
        ensures { result ≡ holds self.now chunk }
    {
        self.chunks[chunk.slot()].is_some_and(|held| held.is(chunk))
    }

    // The height that stands where that of this cell belongs, or none where the mark does.
    pub fn get(&self, at: Cell) -> Option<u16>
        ensures { result ≡ height_for (stored self.now at) }
    {
        let number = self.heights[index(at)];
        (number != MARK).then_some(number)
    }

    // Writes a height, or the mark, where that of this cell belongs.
    pub(crate) fn put(&mut self, at: Cell, height: Option<u16>)
        ensures here { stored self.new at ≡ number_for height }
        ensures others { (c : Cell) → (index_of c ≢ index_of at) → stored self.new c ≡ stored self.old c }
        ensures held { (k : Chunk) → holds self.new k ≡ holds self.old k }
    {
        self.heights[index(at)] = height.unwrap_or(MARK);
    }

    // Writes the address of a chunk whose numbers are there.
    #[tactic(auto, using(crate::proofs::Filling::labelled))]
    pub(crate) fn label(&mut self, chunk: Chunk)
        ensures numbers { (c : Cell) → stored self.new c ≡ stored self.old c }
        ensures held { (k : Chunk) → holds self.new k ≡ holding chunk (holds self.old) k }
    {
        self.chunks[chunk.slot()] = Some(chunk);
    }
}
