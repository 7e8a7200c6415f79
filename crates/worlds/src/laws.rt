// Laws about the definitions that the contracts cite. Each is the contract of a function, so that it has to be proved.
ghost use Rattle.worlds.specs.Laws.{DifferentSlots, Holding};

// Which chunks are held follows from the events one by one.
pub fn holding()
    ensures { Holding }
{}

// No fill of a drawing drives out a chunk of that drawing.
pub fn different_slots()
    ensures { DifferentSlots }
{}
