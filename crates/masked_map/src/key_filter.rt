//! Which keys may be in a map, so that most of those that aren't need no look-up.

ghost use Rattle.std.specs.Prelude.{◌≡◌, ◌<◌, ℕ, true};
ghost use Rattle.masked_map.specs.Filters.{has_mark, word_of, bit_of};

use std::alloc::{AllocError, Global};

/// How many bits a word has.
const WORD_BITS: u64 = 64;

/// The first bit of the upper half of a mark, which tells the word.
const WORD_SHIFT: u32 = 32;

/// The first of the bits of a mark that tell the bit of the word: those below the upper half.
const BIT_SHIFT: u32 = WORD_SHIFT - 6;

/// How many bits of a word may be set, on average.
const KEYS_PER_WORD: usize = 8;

/// A Bloom filter with one hash function (Bloom, "Space/Time Trade-offs in Hash Coding with Allowable Errors", CACM 13(7),
/// 1970). A key that was added may be there; of those that weren't it rules most out.
#[derive(Drop)]
pub(crate) struct KeyFilter {
    /// Without any no key is ruled out.
    pub(crate) words: Vec<u64>,
    /// How many bits may be set still before it rules too few keys out.
    left: usize,
}

impl KeyFilter {
    /// One that rules no key out. It takes no memory.
    pub(crate) fn none(alloc: Global) -> KeyFilter
        ensures { (mark : ℕ) → has_mark result mark ≡ true }
    {
        KeyFilter {
            words: Vec::new(alloc),
            left: 0,
        }
    }

    /// One for so many keys and as many more, to which none was added. The only error is out of memory.
    pub(crate) fn for_keys(alloc: Global, keys: usize) -> Result<KeyFilter, AllocError> {
        let count = 2 * (keys / KEYS_PER_WORD + 1);
        Ok(KeyFilter {
            words: vec![in alloc; 0; count]?,
            left: count.saturating_mul(KEYS_PER_WORD),
        })
    }

    /// Whether as many bits are set as should be. Those of keys that went are among them.
    pub(crate) fn is_full(&self) -> bool {
        self.left == 0
    }

    /// Whether a key of this mark may be there.
    #[inline(always)]
    pub(crate) fn may_have(&self, mark: u64) -> bool
        ensures { result ≡ has_mark self.now mark }
    {
        let place = word_of(self.words.len(), mark);
        if place >= self.words.len() {
            return true;
        }
        self.words[place] >> bit_of(mark) & 1 == 1
    }

    /// A key of this mark may be there from now on.
    pub(crate) fn add(&mut self, mark: u64)
        ensures marked { has_mark self.new mark ≡ true }
        ensures keeps { (other : ℕ) → has_mark self.old other ≡ true
            → has_mark self.new other ≡ true }
    {
        let place = word_of(self.words.len(), mark);
        if place < self.words.len() {
            let word = self.words[place];
            let with_bit = word | 1 << bit_of(mark);
            self.words[place] = with_bit;
            self.left = self.left.saturating_sub(usize::from(with_bit != word));
        }
    }
}

/// The place of the word that a mark tells, of so many: as far among them as its upper half is among all numbers.
#[inline]
fn word_of(count: usize, mark: u64) -> usize
    ensures { result ≡ word_of count mark }
{
    ((mark >> WORD_SHIFT).wrapping_mul(count as u64) >> WORD_SHIFT) as usize
}

/// The bit of that word, by bits below these.
#[inline]
fn bit_of(mark: u64) -> u32
    ensures value { result ≡ bit_of mark }
    ensures within { result < 64 }
{
    ((mark >> BIT_SHIFT) % WORD_BITS) as u32
}
