// The kinds of coast that `sheet` draws.
ghost use Rattle.std.specs.Prelude.{◌≡◌};
ghost use Rattle.std.specs.Option.{option_map};
ghost use Rattle.coasts.specs.Kinds.{formula};
ghost use Rattle.sheets.specs.Kinds.{rules_of};

use coasts::kinds::Cached;
pub use coasts::kinds::heights;
use grid::blank::Blank;
use grid::cell::Cell;
use grid::field::Field;
use grounds::noise::Noise;
use layers::smoothing::Smoothing;
use request::Kind;

// Smoothing over a cache over a field.
pub type Smoothed<F> = Cached<F, Smoothing>;

// What a kind answers at one cell, if the kind is built.
#[tactic(auto, unfolding(grid::specs::Piles::carry))]
pub fn cell(kind: Kind, seed: u64, at: Cell) -> Option<Result<u16, Blank>>
    ensures { result ≡ option_map (λ ss. formula ss seed at) (rules_of kind) }
{
    match kind {
        Kind::Raw => Some(Noise::new(seed).ask(at)),
        Kind::Heights => Some(heights(seed).ask(at)),
        Kind::Sites | Kind::Roads => None,
    }
}
