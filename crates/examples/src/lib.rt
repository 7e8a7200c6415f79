// Worked examples of the definitions that the contracts cite, as one theorem.
#![tactic(auto)]

ghost use Rattle.examples.specs.Examples.{Examples};

// It has no body: the theorem is its contract, so that it has to be proved.
pub fn examples()
    ensures { Examples }
{}
