/// What the prefixes of a trie tell of a number.
#[derive(Clone, Copy)]
pub struct Found {
    /// Bit n, counted from the least, is 1 where the number begins with a prefix of n + 1 bits.
    pub lengths: u128,
    /// How many leading bits of the number decide that for all of the prefixes, from 0 to the width.
    pub bits: u32,
}
