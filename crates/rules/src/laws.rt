// The rules in plain terms. Each law is the contract of a function, so that it has to be proved.
ghost use Rattle.rules.specs.Roads.{RoadsStand};
ghost use Rattle.rules.specs.Settlements.{SettlementsStand};

// A settlement is where the centre outranks all others.
pub fn settlements()
    ensures { SettlementsStand }
{}

// A road is where the centre lies on the path of a linked pair.
pub fn roads()
    ensures { RoadsStand }
{}
