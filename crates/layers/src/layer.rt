// A rule on top of a field.
ghost use Rattle.std.specs.Prelude.{◌≡◌, ◌≤◌, true, pos, ◌+ℤ◌, ◌-ℤ◌, unsigned_abs};
ghost use Rattle.grid.specs.Piles.{north_west, step};
ghost use Rattle.grid.specs.Places.{cell_at, inside, rim};
ghost use Rattle.layers.specs.Layers.{layer_lawful, layer_meaning};

use grid::blank::Blank;
use grid::cell::Cell;
use grid::field::Field;
use grid::rule::Rule;

// The most cells that a square has: 23 by 23, at a radius of 11.
const LARGEST_SQUARE: usize = 529;

#[derive(Drop)]
pub struct Layer<F, R> {
    below: F,
    rule: R,
}

// The coordinate number `place` of those that the square around this one has. Within the rim no sum overflows.
fn of_square(centre: i32, radius: u8, place: u8) -> i32
    requires { unsigned_abs centre ≤ rim }
    ensures { result ≡ (centre -ℤ pos radius) +ℤ pos place }
{
    centre - i32::from(radius) + i32::from(place)
}

// The cell in this column and row of the square around `centre`.
fn square_cell(centre: Cell, radius: u8, column: u8, row: u8) -> Cell
    requires { inside centre ≡ true }
    ensures { result ≡ cell_at (north_west radius centre) column row }
{
    Cell {
        x: of_square(centre.x, radius, column),
        y: of_square(centre.y, radius, row),
    }
}

impl<F: Field, R: Rule> Layer<F, R> {
    // A layer on top of this field, which is not asked for anything yet.
    pub fn new(below: F, rule: R) -> Layer<F, R>
        ensures meaning { ⟦<Layer<F, R> as Field>⟧.meaning result ≡ step (R.Rule.stencil rule) (F.Field.meaning below) }
        ensures unasked { result.below ≡ below }
    {
        Layer { below, rule }
    }
}

impl<F: Field, R: Rule> Field for Layer<F, R> {
    ghost meaning = { layer_meaning R.Rule.stencil F.Field.meaning };

    ghost lawful = { λ s. layer_lawful R.Rule.stencil F.Field.meaning (λ _. Unit {0}) R.Rule.fit (λ f _. F.Field.lawful f) s tt };

    // Asks the cells of the square in reading order, up to the first blank.
    fn ask(&mut self, at: Cell) -> Result<u16, Blank> {
        if !at.is_inside() {
            return Err(Blank::new(at));
        }
        let radius = self.rule.radius();
        let side = 2 * radius + 1;
        let mut square = [0u16; LARGEST_SQUARE];
        // Labelled loops over a fixed local array are the form that the project wants here. The square stands in that array, not on the heap, and is filled up to `count`: as far as the walk has come.
        let mut count: usize = 0;
        let mut blank = None;
        'search: for row in 0..side {
            for column in 0..side {
                match self.below.ask(square_cell(at, radius, column, row)) {
                    Ok(height) => {
                        square[count] = height;
                        count += 1;
                    }
                    Err(found) => {
                        blank = Some(found);
                        break 'search;
                    }
                }
            }
        }
        match blank {
            Some(found) => Err(found.raise()),
            None => Ok(self.rule.answer(&square[..count])),
        }
    }
}
