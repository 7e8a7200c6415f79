// sheet: draws the window that one line of standard input asks for.
#![tactic(auto)]

ghost use Rattle.std.specs.Prelude.{IfOk, take};
ghost use Rattle.std.specs.Io.KnownBytes.{Consumes};
ghost use Rattle.sheet.specs.Input.{Complete, StopsAtLineFeed};

use programs::ending::exit_code;
use request::LONGEST_LINE;
use sheets::answer::answer;
use std::io;
use std::io::Read;
use std::process::ExitCode;

// Reads up to the first line feed, and no byte more than a request line can have. The answer is how many bytes came.
// An array and no vector, so that reading a line cannot fail for want of memory; and `read` byte by byte, so that the contract can say what is left of the input.
fn read_line<R: Read>(input: &mut R, line: &mut [u8; LONGEST_LINE]) -> io::Result<usize>
    ensures line { IfOk result (StopsAtLineFeed line.new) }
    ensures complete { IfOk result (λ n. Complete line.new n (R.Read.remaining input.new)) }
    // The bytes of the line are all that was taken of the input.
    ensures taken { IfOk result (λ n. Consumes (R.Read.remaining input.old) (R.Read.remaining input.new) (take n line.new)) }
{
    for count in 0..LONGEST_LINE {
        let mut next = [0; 1];
        if input.read(&mut next)? == 0 {
            return Ok(count);
        }
        line[count] = next[0];
        if next[0] == b'\n' {
            return Ok(count + 1);
        }
    }
    Ok(LONGEST_LINE)
}

fn run(rt: &HostRuntime) -> anyhow::Result<()> {
    let mut line = [0; LONGEST_LINE];
    let count = read_line(&mut rt.stdin(), &mut line)?;
    let text = answer(rt.alloc(), &line[..count])?;
    rt.print(text.as_str())?;
    Ok(())
}

fn main(rt: HostRuntime) -> ExitCode {
    exit_code(&rt, "sheet", run(&rt))
}
