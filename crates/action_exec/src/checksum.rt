//! Checksums that follow the words that they cover (RFC 1624, equation 3).
ghost use Rattle.std.specs.Prelude.{◌≡◌, ◌+◌, ◌*◌, ◌≤◌, length, take};
ghost use Rattle.spec_exec.specs.Rewriting.{sent_as, after_word};
ghost use Rattle.action_exec.specs.Placed.{zero_of};
ghost use Rattle.action_exec.specs.Following.{frame_words, after_list, followed_list, SumIsBefore, sum_before, with_sum};

use crate::shape::MOST_WORDS;
use crate::sum::{Sum, Zero};
use net_bytes::{be16, checksum_update, put16};

/// How many bytes a word has.
const WORD_SIZE: usize = 2;

/// The words from an offset on, at the front.
pub fn words_at(frame: &[u8], at: usize, count: usize) -> [u16; MOST_WORDS]
    requires few { count ≤ MOST_WORDS }
    requires there { at + 2 * count ≤ length frame.now }
    ensures { take count result ≡ frame_words count frame.now at }
{
    let mut words = [0; MOST_WORDS];
    'words: for i in 0..count {
        words[i] = be16(frame, at + WORD_SIZE * i);
    }
    words
}

/// What is sent for a checksum.
fn sent_as(zero_says: Zero, sum: u16) -> u16
    ensures { result ≡ sent_as (zero_of zero_says) sum }
{
    match zero_says {
        Zero::Plain => sum,
        Zero::Ones | Zero::Absent => { if sum == 0 { u16::MAX } else { sum } }
    }
}

/// A checksum after a word was one number and is another. Where the word stays, so does the checksum, be it wrong.
#[tactic(auto, unfolding(spec_exec::specs::Rewriting::after_word))]
fn after_word(zero_says: Zero, sum: u16, from: u16, to: u16) -> u16
    ensures { result ≡ after_word (zero_of zero_says) sum from to }
{
    if from == to {
        sum
    } else {
        sent_as(zero_says, checksum_update(sum, from, to))
    }
}

/// A checksum after the words at an offset, which were these, are those of the frame.
fn after_words(zero_says: Zero, sum: u16, words: &[u16], frame: &[u8], at: usize) -> u16
    requires { at + 2 * length words.now ≤ length frame.now }
    ensures { result ≡ after_list (zero_of zero_says) words.now at frame.now sum }
{
    let mut sum = sum;
    let mut at = at;
    'words: for from in words {
        sum = after_word(zero_says, sum, *from, be16(frame, at));
        at += WORD_SIZE;
    }
    sum
}

/// The same, but none where 0 said that there is none.
fn followed(zero_says: Zero, sum: u16, words: &[u16], frame: &[u8], at: usize) -> u16
    requires { at + 2 * length words.now ≤ length frame.now }
    ensures { result ≡ followed_list (zero_of zero_says) words.now at frame.now sum }
{
    match zero_says {
        Zero::Absent if sum == 0 => 0,
        Zero::Absent | Zero::Plain | Zero::Ones => after_words(zero_says, sum, words, frame, at),
    }
}

/// A checksum of a frame; 0 where there is none.
pub fn sum_of(frame: &[u8], sum: Option<Sum>) -> u16
    requires { SumIsBefore (length frame.now) sum }
    ensures { result ≡ sum_before sum frame.now }
{
    match sum {
        Some(sum) => be16(frame, sum.at),
        None => 0,
    }
}

/// Lets a checksum, which was this number, follow the words at an offset, which were these.
pub fn correct(frame: &mut [u8], sum: Option<Sum>, before: u16, words: &[u16], at: usize)
    requires sum { SumIsBefore (length frame.old) sum }
    requires words { at + 2 * length words.now ≤ length frame.old }
    ensures { frame.new ≡ with_sum sum before words.now at frame.old }
{
    if let Some(sum) = sum {
        let now = followed(sum.zero_says, before, words, frame, at);
        put16(frame, sum.at, now);
    }
}
