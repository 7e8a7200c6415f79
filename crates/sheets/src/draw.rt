// Drawing a window of any field, asked cell by cell, as text.
ghost use Rattle.std.specs.Prelude.{◌≡◌, ◌<◌, IfOk, MatchResult, Ok, Err, length, string_bytes};
ghost use Rattle.grid.specs.Piles.{survey};
ghost use Rattle.grid.specs.Windows.{height_of, width_of};
ghost use Rattle.coasts.specs.Answers.{Drawn, row_cells};

use coasts::text::{write_fills, write_refusal, write_row};
use grid::field::Field;
use grid::window::{LONGEST_SIDE, Window};
use std::alloc::{AllocError, Global};
use worlds::refusal::BlankFault;

// Writes the heights of a row of the window, up to the first blank.
fn draw_row<F: Field>(
    field: &mut F,
    window: Window,
    row: u16,
    heights: &mut [u16],
) -> Result<(), BlankFault>
    requires { (row < height_of window) × (length heights.old ≡ width_of window) }
    ensures row { MatchResult result (λ _. survey (F.Field.meaning field.old) (row_cells window row) ≡ Ok heights.new) (λ f. survey (F.Field.meaning field.old) (row_cells window row) ≡ Err f.blank) }
    ensures same { F.Field.meaning field.new ≡ F.Field.meaning field.old }
    ensures long { length heights.new ≡ length heights.old }
{
    for (column, place) in heights.iter_mut().enumerate() {
        // The row is as wide as the window, so that each column fits and has its cell.
        let Some(at) = window.cell(column as u16, row) else {
            break;
        };
        match field.ask(at) {
            Ok(height) => *place = height,
            Err(blank) => return Err(BlankFault { cell: at, blank }),
        }
    }
    Ok(())
}

// The text of the drawing: its rows, and how many chunks a newly opened world would fill for them.
pub(crate) fn draw<F: Field>(
    heap: Global,
    field: &mut F,
    window: Window,
) -> Result<String, AllocError>
    ensures { IfOk result (λ t. Drawn (F.Field.meaning field.old) window (string_bytes t)) }
{
    let mut text = String::new(heap);
    // An array and no vector, so that only the text can want memory.
    let mut places = [0; LONGEST_SIDE as usize];
    let heights = &mut places[..usize::from(window.width())];
    for row in 0..window.height() {
        if let Err(fault) = draw_row(field, window, row, heights) {
            write_refusal(&mut text, fault.number())?;
            return Ok(text);
        }
        write_row(&mut text, heights)?;
    }
    write_fills(&mut text, window.chunk_count())?;
    Ok(text)
}
