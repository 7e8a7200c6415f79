// Why a window is not made. Each has the number under which users know it.
ghost use Rattle.std.specs.Prelude.{◌≡◌};
ghost use Rattle.grid.specs.Refusals.{window_refusal};

#[derive(Clone, Copy, Debug, PartialEq, Eq)]
pub enum WindowRefusal {
    // The width or the height is 0 or above 57.
    Size = 2,
    // Some cell of the rectangle is not inside the rim.
    Rim = 3,
}

impl WindowRefusal {
    // The number under which users know this refusal. Each type of refusal has such a method; a trait over them is no plainer, as nobody takes all of them.
    pub fn number(self) -> u8
        ensures { result ≡ window_refusal self }
    {
        self as u8
    }
}
