//! Checksums of the Internet protocols, and their update (RFC 1071 and 1624).
ghost use Rattle.std.specs.Prelude.{◌≡◌};
ghost use Rattle.spec_exec.specs.Checksum.{checksum, ones_add, updated};
ghost use Rattle.net_bytes.specs.Update.{UpdateIsRecomputing};

// The sum in ones' complement: what is carried out of the word is added again at its end.
fn ones_add(a: u16, b: u16) -> u16
    ensures { result ≡ ones_add a b }
{
    let (sum, carried) = a.overflowing_add(b);
    sum + u16::from(carried)
}

/// The checksum of words of 16 bits, of which the one in its own place is 0.
#[tactic(auto, unfolding(spec_exec::specs::Checksum::checksum))]
pub fn checksum_of(words: &[u16]) -> u16
    ensures { result ≡ checksum words.now }
{
    let mut sum = 0;
    'words: for word in words {
        sum = ones_add(sum, *word);
    }
    !sum
}

/// The checksum after one of the words that it covers has changed (RFC 1624, equation 3).
///
/// The checksum was `sum`, and the word was `from` and is `to` now. It is the checksum of the words as they are now, but
/// for the two zeros of ones' complement (`update_is_recomputing`).
#[tactic(auto, unfolding(spec_exec::specs::Checksum::updated))]
pub fn checksum_update(sum: u16, from: u16, to: u16) -> u16
    ensures { result ≡ updated sum from to }
{
    !ones_add(ones_add(!sum, !from), to)
}

/// Updating a checksum gives the one that is computed anew, except where all words are 0 now: then the update gives 0,
/// and computing anew gives 65,535. The law is of the two definitions alone, so there is nothing to do.
pub fn update_is_recomputing()
    ensures { UpdateIsRecomputing }
{}
