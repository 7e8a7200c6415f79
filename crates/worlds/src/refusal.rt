// Why a cell is not answered or a row not written.
ghost use Rattle.std.specs.Prelude.{◌≡◌};
ghost use Rattle.worlds.specs.Refusals.{fault_refusal, row_refusal};
ghost use Rattle.worlds.specs.declared.refusal.RowRefusal.TheVariants.{Blank};

use grid::blank::Blank;
use grid::cell::Cell;

// The asked cell is blank.
#[derive(Clone, Copy, Debug, PartialEq, Eq)]
pub struct BlankFault {
    // The cell that was asked.
    pub cell: Cell,
    // What it answered.
    pub blank: Blank,
}

impl BlankFault {
    // The number under which users know this refusal. No trait, as at `WindowRefusal::number`.
    pub fn number(self) -> u8
        ensures { result ≡ fault_refusal }
    {
        6
    }
}

#[derive(Clone, Copy, Debug, PartialEq, Eq)]
pub enum RowRefusal {
    // Every row of the window is written.
    Full,
    // The caller's row is shorter than the window is wide.
    Short,
    // A cell of the row is blank.
    Blank(BlankFault),
}

impl RowRefusal {
    // The number under which users know this refusal. A variant carries data, so no cast of a discriminant gives it.
    pub fn number(self) -> u8
        ensures { result ≡ row_refusal self }
    {
        match self {
            RowRefusal::Full => 4,
            RowRefusal::Short => 5,
            RowRefusal::Blank(fault) => fault.number(),
        }
    }
}

impl From<BlankFault> for RowRefusal {
    ghost from_gives = { λ f r. r ≡ Blank f };

    fn from(fault: BlankFault) -> Self {
        Self::Blank(fault)
    }
}
