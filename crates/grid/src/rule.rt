// Rules: functions from a square of heights to one height.
ghost use Rattle.std.specs.Prelude.{◌≡◌, length};
ghost use Rattle.grid.specs.Piles.{Fit, Stencil, Whole, area};

pub trait Rule {
    // The radius of the square, and the function.
    ghost stencil: { Self → Stencil };

    // How far the square reaches on each side of its centre.
    fn radius(&self) -> u8
        ensures { result ≡ (stencil self.now).radius };

    // The rule's height for a square in reading order. Layers hand it whole squares of heights, and of others nothing is claimed.
    fn answer(&self, square: &[u16]) -> u16
        requires { length square.now ≡ area (stencil self.now).radius }
        ensures { Whole (stencil self.now).radius square.now → result ≡ (stencil self.now).value square.now };

    // What every rule owes: a radius of at most 11, and a height for every square of heights.
    ghost fit: { (s : Self) → Fit (stencil s) };
}
