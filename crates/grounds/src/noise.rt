// Noise: a coast that is drawn from a seed alone.
ghost use Rattle.std.specs.Prelude.{◌≡◌, ◌<◌};
ghost use Rattle.grounds.specs.GroundLaws.{noise_lawful};
ghost use Rattle.grounds.specs.Noises.{noise, noise_height, residue, seed_of};

use crate::splitmix::splitmix64;
use grid::blank::Blank;
use grid::cell::Cell;
use grid::field::Field;

#[derive(Clone, Copy, Debug)]
pub struct Noise {
    seed: u64,
}

// A coordinate modulo 2^32.
fn wrapped(coordinate: i32) -> u64
    ensures { result ≡ residue coordinate }
{
    u64::from(coordinate.cast_unsigned())
}

impl Noise {
    pub fn new(seed: u64) -> Noise
        ensures { seed_of result ≡ seed }
    {
        Noise { seed }
    }

    // The height at this cell: the top 12 bits of the output that has the cell's own number. They fit, and a `try_from` would have an error that never comes.
    pub fn height(&self, at: Cell) -> u16
        ensures value { result ≡ noise_height (seed_of self.now) at }
        ensures bound { result < 4096 }
    {
        let k = wrapped(at.y) * 0x1_0000_0000 + wrapped(at.x);
        (splitmix64(self.seed, k) >> 52) as u16
    }
}

impl Field for Noise {
    ghost meaning = { λ n. noise (seed_of n) };

    ghost lawful = { λ n. noise_lawful (seed_of n) };

    fn ask(&mut self, at: Cell) -> Result<u16, Blank> {
        if at.is_inside() {
            Ok(self.height(at))
        } else {
            Err(Blank::new(at))
        }
    }
}
