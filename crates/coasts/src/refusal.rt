// Why there is nothing to draw.
ghost use Rattle.std.specs.Prelude.{◌≡◌};
ghost use Rattle.coasts.specs.Refusals.{plan_refusal};
ghost use Rattle.coasts.specs.declared.refusal.PlanRefusal.TheVariants.{Request as ByRequest, Window as ByWindow};

use grid::window::WindowRefusal;
use request::RequestRefusal;

#[derive(Clone, Copy, Debug, PartialEq, Eq)]
pub enum PlanRefusal {
    // No request was read.
    Request(RequestRefusal),
    // The window that is asked for is not made.
    Window(WindowRefusal),
}

impl PlanRefusal {
    // The number under which users know this refusal. No trait, as at `WindowRefusal::number`.
    pub fn number(self) -> u8
        ensures { result ≡ plan_refusal self }
    {
        match self {
            PlanRefusal::Request(refusal) => refusal.number(),
            PlanRefusal::Window(refusal) => refusal.number(),
        }
    }
}

impl From<RequestRefusal> for PlanRefusal {
    ghost from_gives = { λ e r. r ≡ ByRequest e };

    fn from(refusal: RequestRefusal) -> Self {
        Self::Request(refusal)
    }
}

impl From<WindowRefusal> for PlanRefusal {
    ghost from_gives = { λ e r. r ≡ ByWindow e };

    fn from(refusal: WindowRefusal) -> Self {
        Self::Window(refusal)
    }
}
