// Drawing a window of any field on a world of its own, as text.
ghost use Rattle.std.specs.Prelude.{◌≡◌, IfOk, string_bytes};
ghost use Rattle.coasts.specs.Answers.{Drawn};

use crate::text::{write_fills, write_refusal, write_row};
use grid::field::Field;
use grid::window::{LONGEST_SIDE, Window};
use std::alloc::{AllocError, Global};
use worlds::world::World;

// The text of the drawing: its rows, and how many chunks the world filled for them.
pub(crate) fn draw<F: Field + Drop>(
    heap: Global,
    field: F,
    window: Window,
) -> Result<String, AllocError>
    ensures { IfOk result (λ t. Drawn (F.Field.meaning field) window (string_bytes t)) }
{
    let mut text = String::new(heap);
    let mut drawing = World::open(field).begin(window);
    // An array and no vector, so that only the text can want memory.
    let mut row = [0; LONGEST_SIDE as usize];
    let heights = &mut row[..usize::from(window.width())];
    for _ in 0..window.height() {
        if let Err(refusal) = drawing.row(heights) {
            write_refusal(&mut text, refusal.number())?;
            return Ok(text);
        }
        write_row(&mut text, heights)?;
    }
    let (_, fills) = drawing.finish();
    write_fills(&mut text, fills)?;
    Ok(text)
}
