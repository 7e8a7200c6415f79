// One field of a request line: a value whose text ends with a space or a line feed.
ghost use Rattle.std.specs.Prelude.{◌≡◌, ℕ, ◌<◌, List};
ghost use Rattle.request.specs.Fields.{Cut, FieldRead, Printable, Spells};

// A value that has one text. Its text has no space and no control character.
pub(crate) trait Field: Sized {
    ghost text: { Self → List ℕ };

    ghost fits: { Self → Type 0 };

    // The value of which this is the text.
    fn read(bytes: &[u8]) -> Option<Self>
        ensures { Spells text fits bytes.now result };

    ghost printable: { (v : Self) → fits v → Printable (text v) };
}

// The bytes before the first `end`, and those after it.
fn cut(bytes: &[u8], end: u8) -> Option<(&[u8], &[u8])>
    ensures { Cut end bytes.now result }
{
    let i = bytes.iter().position(|b| *b == end)?;
    Some((&bytes[..i], &bytes[i + 1..]))
}

// The value that the bytes open with, its text ending with `end`, and what follows.
pub(crate) fn take<T: Field>(bytes: &[u8], end: u8) -> Option<(T, &[u8])>
    requires { end < 33 }
    ensures { FieldRead T.Field.text T.Field.fits end bytes.now result }
{
    let (text, rest) = cut(bytes, end)?;
    let value = T::read(text)?;
    Some((value, rest))
}
