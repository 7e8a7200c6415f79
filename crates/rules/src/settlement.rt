// Settlement: a cell that outranks all others of its square.
ghost use Rattle.rules.specs.Settlements.{settlement, settlement_fit};

use grid::rule::Rule;

// The place of the centre among the 25 cells of the square.
const CENTRE: usize = 12;

#[derive(Clone, Copy, Debug)]
pub struct Settlement {}

impl Rule for Settlement {
    ghost stencil = { λ _. settlement };

    ghost fit = { λ _. settlement_fit };

    fn radius(&self) -> u8 {
        2
    }

    // The centre outranks a cell where its height is greater, or equal and earlier.
    fn answer(&self, square: &[u16]) -> u16 {
        let centre = square[CENTRE];
        let settles = square.iter().enumerate().all(|(place, &height)| {
            place == CENTRE || (height, CENTRE) < (centre, place)
        });
        u16::from(settles)
    }
}
