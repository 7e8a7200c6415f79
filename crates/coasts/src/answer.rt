// The answer to an input: the text of a drawing, or the line of a refusal.
ghost use Rattle.std.specs.Prelude.{◌≡◌, IfOk, string_bytes};
ghost use Rattle.coasts.specs.Answers.{Prints};
ghost use Rattle.coasts.specs.Refusals.{plan_refusal};
ghost use Rattle.coasts.specs.Texts.{refusal_text};

use crate::plan::Plan;
use crate::refusal::PlanRefusal;
use crate::text::write_refusal;
use std::alloc::{AllocError, Global};

// The line of a refusal by itself.
pub fn refusal_line(heap: Global, refusal: PlanRefusal) -> Result<String, AllocError>
    ensures { IfOk result (λ t. string_bytes t ≡ refusal_text (plan_refusal refusal)) }
{
    let mut text = String::new(heap);
    write_refusal(&mut text, refusal.number())?;
    Ok(text)
}

// What is printed for this input.
pub fn answer(heap: Global, input: &[u8]) -> Result<String, AllocError>
    ensures { IfOk result (λ t. Prints input.now (string_bytes t)) }
{
    match Plan::read(input) {
        Ok(plan) => plan.draw(heap),
        Err(refusal) => refusal_line(heap, refusal),
    }
}
