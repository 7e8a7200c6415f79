// Chunks of 8 by 8 cells.
ghost use Rattle.std.specs.Prelude.{◌≡◌, ◌+◌, ◌*◌, ◌<◌};
ghost use Rattle.grid.specs.Places.{rest, same_chunk, slot_of};

// The address of a chunk: the floor of x / 8 and of y / 8 for each of its cells. `Cell::chunk` is the only way to one.
#[derive(Clone, Copy, Debug, PartialEq, Eq)]
pub struct Chunk {
    pub(crate) x: i32,
    pub(crate) y: i32,
}

// The place of two coordinates, modulo 8, among 8 rows of 8, in reading order from 0 to 63.
// No `From` leads from an `i32` to an index, and a `try_from` would have an error that never comes.
pub(crate) fn among_64(x: i32, y: i32) -> usize
    ensures value { result ≡ 8 * rest y + rest x }
    ensures bound { result < 64 }
{
    8 * y.rem_euclid(8) as usize + x.rem_euclid(8) as usize
}

impl Chunk {
    // The table slot to which this chunk belongs, from 0 to 63.
    pub fn slot(self) -> usize
        ensures value { result ≡ slot_of self }
        ensures bound { result < 64 }
    {
        among_64(self.x, self.y)
    }

    // Whether this is the address of the same chunk. It is the derived equality under a contract in the words of the addresses, and stays beside it since a must-fail edit turns its body.
    pub fn is(self, other: Chunk) -> bool
        ensures { result ≡ same_chunk self other }
    {
        self == other
    }
}
