// The lines that are printed.
ghost use Rattle.std.specs.Prelude.{◌≡◌, ◌++◌, string_bytes, OnOk};
ghost use Rattle.coasts.specs.Texts.{fills_text, refusal_text, row_text, spaced};

use std::alloc::AllocError;

// Each height after a space.
fn write_others(text: &mut String, heights: &[u16]) -> Result<(), AllocError>
    ensures { OnOk result (string_bytes text.new ≡ string_bytes text.old ++ spaced heights.now) }
{
    for height in heights {
        write!(text, " {height}")?;
    }
    Ok(())
}

// The heights parted by one space.
pub fn write_row(text: &mut String, heights: &[u16]) -> Result<(), AllocError>
    ensures { OnOk result (string_bytes text.new ≡ string_bytes text.old ++ row_text heights.now) }
{
    match heights {
        [] => writeln!(text),
        [first, others @ ..] => {
            write!(text, "{first}")?;
            write_others(text, others)?;
            writeln!(text)
        }
    }
}

pub fn write_fills(text: &mut String, fills: u32) -> Result<(), AllocError>
    ensures { OnOk result (string_bytes text.new ≡ string_bytes text.old ++ fills_text fills) }
{
    writeln!(text, "fills {fills}")
}

// A refusal is printed by its number, which its type gives. A `Display` for each type would say this line several times.
pub fn write_refusal(text: &mut String, number: u8) -> Result<(), AllocError>
    ensures { OnOk result (string_bytes text.new ≡ string_bytes text.old ++ refusal_text number) }
{
    writeln!(text, "refused {number}")
}
