// Reading a request from the bytes of its line.
ghost use Rattle.std.specs.Prelude.{◌≡◌};
ghost use Rattle.request.specs.Requests.{Reading, ReadingFields, asked_corner};

use crate::field::take;
use crate::{Request, RequestRefusal};
use grid::cell::Cell;

// The longest request line, its line feed included.
pub const LONGEST_LINE: usize = 80;

// The request whose line the bytes open with, however long it is.
fn fields(bytes: &[u8]) -> Option<Request>
    ensures { ReadingFields bytes.now result }
{
    let (kind, rest) = take::<crate::Kind>(bytes, b' ')?;
    let (seed, rest) = take::<u64>(rest, b' ')?;
    let (x, rest) = take::<i32>(rest, b' ')?;
    let (y, rest) = take::<i32>(rest, b' ')?;
    let (width, rest) = take::<u16>(rest, b' ')?;
    let (height, _) = take::<u16>(rest, b'\n')?;
    Some(Request {
        kind,
        seed,
        x,
        y,
        width,
        height,
    })
}

impl Request {
    // The request for which the bytes ask; what follows its line is ignored.
    pub fn read(bytes: &[u8]) -> Result<Request, RequestRefusal>
        ensures { Reading bytes.now result }
    {
        let front = bytes.len().min(LONGEST_LINE);
        fields(&bytes[..front]).ok_or(RequestRefusal::Unreadable)
    }

    // The north-west cell of the window that is asked for.
    pub fn corner(&self) -> Cell
        ensures { result ≡ asked_corner self.now }
    {
        Cell {
            x: self.x,
            y: self.y,
        }
    }
}
