// The answer to an input: the text that `sheet` prints.
ghost use Rattle.std.specs.Prelude.{◌≡◌, ℕ, ◌+◌, ◌*◌, ◌/◌, nat_le, nat_lt, pos, ◌-ℤ◌, string_bytes, MatchResult};
ghost use Rattle.grid.specs.Counts.{Counts};
ghost use Rattle.grid.specs.Places.{rest};
ghost use Rattle.grid.specs.Windows.{Touches, corner_of, height_of, width_of};
ghost use Rattle.sheets.specs.Answers.{Fails, Prints};

use crate::draw::draw;
use crate::error::SheetError;
use crate::kinds::heights;
use coasts::answer::refusal_line;
use coasts::plan::Plan;
use grid::window::Window;
use grounds::noise::Noise;
use request::Kind;
use std::alloc::Global;

// Whether a row of the smoothed window, which has a cell more on either side, touches nine chunk columns. A table has eight, so that row by row the first and the last would drive each other out.
fn outruns_table(window: Window) -> bool
    ensures { result ≡ nat_lt 8 ((rest ((corner_of window).x -ℤ pos 1) + (width_of window + 2) + 7) / 8) }
{
    (window.corner().x - 1).rem_euclid(8) + i32::from(window.width()) >= 63
}

// Whether 36 or more of the 64 cells of a chunk are drawn, on average. Where fewer are, to fill chunks again costs less than to draw them whole.
fn fills_its_chunks(window: Window) -> bool
    ensures { (n : ℕ) → Counts n (Touches window) → result ≡ nat_le n (width_of window * height_of window / 36) }
{
    let cells = u32::from(window.width()) * u32::from(window.height());
    window.chunk_count() <= cells / 36
}

// What is printed for this input.
pub fn answer(heap: Global, input: &[u8]) -> Result<String, SheetError>
    ensures { MatchResult result (λ t. Prints input.now (string_bytes t)) (Fails input.now) }
{
    let plan = match Plan::read(input) {
        Ok(plan) => plan,
        Err(refusal) => return Ok(refusal_line(heap, refusal)?),
    };
    let Plan { kind, seed, window } = plan;
    match kind {
        Kind::Raw => Ok(draw(heap, &mut Noise::new(seed), window)?),
        // A world asks chunk by chunk, each chunk whole.
        Kind::Heights if outruns_table(window) && fills_its_chunks(window) => Ok(plan.draw(heap)?),
        Kind::Heights => Ok(draw(heap, &mut heights(seed), window)?),
        kind => Err(SheetError::NotBuilt(kind)),
    }
}
