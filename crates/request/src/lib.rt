// The request line: what is to be drawn.
#![tactic(auto)]

ghost use Rattle.std.specs.Prelude.{◌≡◌, Some};
ghost use Rattle.request.specs.Refusals.{request_refusal};
ghost use Rattle.request.specs.Requests.{kind_word};

use std::fmt;

mod field;
mod read;
mod values;

pub use read::LONGEST_LINE;

#[derive(Clone, Copy, Debug, PartialEq, Eq)]
pub enum Kind {
    Raw,
    Heights,
    Sites,
    Roads,
}

impl Kind {
    const ALL: [Kind; 4] = [Kind::Raw, Kind::Heights, Kind::Sites, Kind::Roads];

    // The word that asks for this kind.
    fn word(self) -> &'static str
        ensures { result.now ≡ kind_word self }
    {
        match self {
            Kind::Raw => "raw",
            Kind::Heights => "heights",
            Kind::Sites => "sites",
            Kind::Roads => "roads",
        }
    }
}

// A kind is shown as the word that asks for it.
impl fmt::Display for Kind {
    ghost output = { λ k. Some (kind_word k) };

    fn fmt<W: fmt::Write>(&self, f: &mut fmt::Formatter<W>) -> fmt::Result {
        f.write_str(self.word())
    }
}

#[derive(Clone, Copy, Debug, PartialEq, Eq)]
pub struct Request {
    pub kind: Kind,
    pub seed: u64,
    // The two coordinates stand as on the line. A cell here would be no plainer: only `corner` wants one, and makes it.
    pub x: i32,
    pub y: i32,
    pub width: u16,
    pub height: u16,
}

// Why no request was read. It has the number under which users know it.
#[derive(Clone, Copy, Debug, PartialEq, Eq)]
pub enum RequestRefusal {
    // The input does not open with the line of a request.
    Unreadable = 1,
}

impl RequestRefusal {
    // The number under which users know this refusal. No trait, as at `WindowRefusal::number`.
    pub fn number(self) -> u8
        ensures { result ≡ request_refusal self }
    {
        self as u8
    }
}
