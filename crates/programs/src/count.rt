// The number of windows that a program is given.
ghost use Rattle.std.specs.Prelude.{IsErr, MatchOption, string_bytes};
ghost use Rattle.std.specs.Str.Parse.{ParsesUnsigned};

use anyhow::anyhow;

// The count that a word of the command line spells, if there is a word.
pub fn window_count(word: Option<String>) -> anyhow::Result<u16>
    ensures { MatchOption word (IsErr result) (λ w. ParsesUnsigned 16 10 (string_bytes w) result) }
{
    let word = word.ok_or_else(|| anyhow!("the number of windows is missing"))?;
    word.as_str().parse::<u16>().map_err(|_| anyhow!(
        "the number of windows must lie from 0 to 65535"
    ))
}
