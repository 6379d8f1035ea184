//! Numbers among words.
ghost use Rattle.std.specs.Prelude.{◌≡◌, IfNone, IfOk};

use anyhow::{Result, anyhow};

/// How the word begins that says how many rounds there are.
const ROUNDS: &str = "--rounds=";

/// The number that a word is.
pub fn number_of(what: &str, word: &str) -> Result<u32> {
    word.parse::<u32>()
        .map_err(|_| anyhow!("{word:?}: no number of {what}"))
}

/// The words before the number of rounds, and that number where the last word gives one.
pub fn split_rounds(words: &[String]) -> Result<(&[String], Option<u32>)>
    ensures { IfOk result (λ r. IfNone r.1 (r.0.now ≡ words.now)) }
{
    if let [before @ .., last] = words
        && let Some(digits) = last.strip_prefix(ROUNDS)
    {
        return Ok((before, Some(number_of("rounds", digits)?)));
    }
    Ok((words, None))
}
