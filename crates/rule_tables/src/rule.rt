use crate::matching::Match;

/// A rule, without its actions.
#[derive(Clone, Copy)]
pub struct Rule {
    /// The number of the edit that added it, from 1.
    pub number: u32,
    /// The table, from 0 to 254.
    pub table: u8,
    /// Of matching rules the one of the greatest priority wins.
    pub priority: u16,
    pub cookie: u64,
    pub matching: Match,
}
