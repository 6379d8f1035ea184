/// A lookup that a translation makes.
#[derive(Clone, Copy)]
pub struct Lookup {
    /// That of the first lookup is 0, and that of one that an action leads to is one more than the action's.
    pub depth: u32,
    pub table: u8,
    /// The number of the rule that won, if one did.
    pub rule: Option<u32>,
}
