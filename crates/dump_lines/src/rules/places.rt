use std::cmp::Reverse;

/// Where a rule stands in the dump: by its table, then by falling priority, then by its number.
#[derive(Clone, Copy, PartialEq, Eq, PartialOrd, Ord)]
pub struct RulePlace {
    pub table: u8,
    pub priority: Reverse<u16>,
    /// The rule's number, of which there is one.
    pub number: u32,
}
