// Laws about the definitions that the contracts cite. Each is the contract of a function, so that it has to be proved.
ghost use Rattle.grid.specs.Piles.{Locality, Squares};

// Only ground within the margin can make two piles with the same rules answer a cell differently.
#[tactic(auto, using(crate::proofs::Locality::locality))]
pub fn locality()
    ensures { Locality }
{}

// The square of a rule is exactly the cells within its radius, each once, in reading order.
#[tactic(auto, using(crate::proofs::Squares::squares))]
pub fn squares()
    ensures { Squares }
{}
