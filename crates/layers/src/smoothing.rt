// Smoothing: a height is averaged with its eight neighbours.
ghost use Rattle.std.specs.Prelude.{◌≡◌, ◌≤◌, length};
ghost use Rattle.layers.specs.Rules.{smoothing, smoothing_fit, weighed};

use grid::rule::Rule;

// In reading order: corners weigh 1, sides 2 and the centre 4.
const WEIGHTS: [u8; 9] = [1, 2, 1, 2, 4, 2, 1, 2, 1];

#[derive(Clone, Copy, Debug)]
pub struct Smoothing {}

// Each height times its weight, together.
fn weighed(weights: &[u8], heights: &[u16]) -> u32
    requires { length weights.now ≤ 9 }
    ensures { result ≡ weighed weights.now heights.now }
{
    weights
        .iter()
        .zip(heights)
        .map(|(weight, height)| u32::from(*weight) * u32::from(*height))
        .sum()
}

impl Rule for Smoothing {
    ghost stencil = { λ _. smoothing };

    ghost fit = { λ _. smoothing_fit };

    fn radius(&self) -> u8 {
        1
    }

    fn answer(&self, square: &[u16]) -> u16 {
        // An average of heights is one; a `try_from` would have an error that never comes.
        (weighed(&WEIGHTS, square) / 16) as u16
    }
}
