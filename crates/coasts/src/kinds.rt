// The kinds of coast, as piles over the noise.
ghost use Rattle.std.specs.Prelude.{◌≡◌};
ghost use Rattle.grid.specs.Piles.{step};
ghost use Rattle.request.specs.declared.Kind.TheVariants.{Heights as KindHeights, Roads as KindRoads, Sites as KindSites};
ghost use Rattle.worlds.specs.Refusals.{looked};
ghost use Rattle.coasts.specs.Kinds.{Unfilled, formula, rules_of, under};

use grid::cell::Cell;
use grid::field::Field;
use grid::rule::Rule;
use grounds::noise::Noise;
use layers::layer::Layer;
use layers::smoothing::Smoothing;
use request::Kind;
use rules::road::Road;
use rules::settlement::Settlement;
use tables::cache::Cache;
use worlds::refusal::BlankFault;
use worlds::world::World;

// A rule over a cache over a field.
pub type Cached<F, R> = Layer<Cache<F>, R>;

// The noise, smoothed twice.
pub type Heights = Cached<Cached<Noise, Smoothing>, Smoothing>;

// The settlements of those heights.
pub type Sites = Cached<Heights, Settlement>;

// The roads between those settlements.
pub type Roads = Cached<Sites, Road>;

fn cached<F: Field, R: Rule>(below: F, rule: R) -> Cached<F, R>
    ensures meaning { ⟦<Cached<F, R> as Field>⟧.meaning result ≡ step (R.Rule.stencil rule) (F.Field.meaning below) }
    // Making a pile asks nothing.
    ensures unasked { under result ≡ below }
    ensures empty { Unfilled result }
{
    Layer::new(Cache::new(below), rule)
}

#[tactic(auto, unfolding(grid::specs::Piles::carry))]
pub fn heights(seed: u64) -> Heights
    ensures meaning { ⟦<Heights as Field>⟧.meaning result ≡ formula (rules_of KindHeights) seed }
    ensures empty { Unfilled result × Unfilled (under result) }
{
    cached(cached(Noise::new(seed), Smoothing {}), Smoothing {})
}

#[tactic(auto, unfolding(grid::specs::Piles::carry))]
pub fn sites(seed: u64) -> Sites
    ensures meaning { ⟦<Sites as Field>⟧.meaning result ≡ formula (rules_of KindSites) seed }
    ensures empty { Unfilled result × (Unfilled (under result) × Unfilled (under (under result))) }
{
    cached(heights(seed), Settlement {})
}

#[tactic(auto, unfolding(grid::specs::Piles::carry))]
pub fn roads(seed: u64) -> Roads
    ensures meaning { ⟦<Roads as Field>⟧.meaning result ≡ formula (rules_of KindRoads) seed }
    ensures empty { Unfilled result × (Unfilled (under result) × (Unfilled (under (under result)) × Unfilled (under (under (under result))))) }
{
    cached(sites(seed), Road {})
}

// What a look at one cell of a kind gives. The noise by itself is its own formula.
#[tactic(auto, unfolding(grid::specs::Piles::carry))]
pub fn look(kind: Kind, seed: u64, at: Cell) -> Result<u16, BlankFault>
    ensures { result ≡ looked at (formula (rules_of kind) seed at) }
{
    // The arms are those of `Plan::draw`, and stand here for the same reason.
    match kind {
        Kind::Raw => World::open(Noise::new(seed)).look(at),
        Kind::Heights => World::open(heights(seed)).look(at),
        Kind::Sites => World::open(sites(seed)).look(at),
        Kind::Roads => World::open(roads(seed)).look(at),
    }
}
