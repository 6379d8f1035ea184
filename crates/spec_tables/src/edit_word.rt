/// What an edit does to the rules of its table (ovs-ofctl(8), `add-flow`, `mod-flows` and `del-flows`).
#[derive(Clone, Copy, PartialEq, Eq)]
pub enum EditWord {
    /// Add a rule, in place of one of the same table, priority and match.
    Add,
    /// Give actions to every rule whose match is the given one or more specific.
    Modify,
    /// Give actions to the rule of the given match and priority.
    ModifyStrict,
    /// Remove every rule whose match is the given one or more specific.
    Delete,
    /// Remove the rule of the given match and priority.
    DeleteStrict,
}
