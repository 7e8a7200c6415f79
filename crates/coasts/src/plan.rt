// Plans: what an input asks to be drawn.
ghost use Rattle.std.specs.Prelude.{IfOk, string_bytes};
ghost use Rattle.coasts.specs.Answers.{Drawn};
ghost use Rattle.coasts.specs.Kinds.{formula, rules_of};
ghost use Rattle.coasts.specs.Plans.{Planning};

use crate::draw::draw;
use crate::kinds::{heights, roads, sites};
use crate::refusal::PlanRefusal;
use grid::window::Window;
use grounds::noise::Noise;
use request::{Kind, Request};
use std::alloc::{AllocError, Global};

#[derive(Clone, Copy, Debug)]
pub struct Plan {
    pub kind: Kind,
    pub seed: u64,
    pub window: Window,
}

impl Plan {
    // What the input asks for, or why there is nothing to draw.
    #[tactic(auto, using(crate::proofs::Plans::no_window))]
    pub fn read(input: &[u8]) -> Result<Plan, PlanRefusal>
        ensures { Planning input.now result }
    {
        let request = Request::read(input)?;
        let window = Window::new(request.corner(), request.width, request.height)?;
        Ok(Plan {
            kind: request.kind,
            seed: request.seed,
            window,
        })
    }

    // The text of its drawing, on a world of its own. The noise by itself is its own formula.
    #[tactic(auto, unfolding(grid::specs::Piles::carry))]
    pub fn draw(self, heap: Global) -> Result<String, AllocError>
        ensures { IfOk result (λ t. Drawn (formula (rules_of self.kind) self.seed) self.window (string_bytes t)) }
    {
        let Plan { kind, seed, window } = self;
        // Each kind is a type of its own. One enum of the four piles, itself a field, is no plainer: it takes a generic enum with laws to save two matches.
        match kind {
            Kind::Raw => draw(heap, Noise::new(seed), window),
            Kind::Heights => draw(heap, heights(seed), window),
            Kind::Sites => draw(heap, sites(seed), window),
            Kind::Roads => draw(heap, roads(seed), window),
        }
    }
}
