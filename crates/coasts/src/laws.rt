// Laws about the kinds. Each is the contract of a function, so that it has to be proved.
ghost use Rattle.coasts.specs.Kinds.{Margins};

// How far from a cell the ground can matter, kind by kind.
#[tactic(auto, unfolding(grid::specs::Piles::margin))]
pub fn margins()
    ensures { Margins }
{}
