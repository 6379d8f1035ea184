/// What the revalidation of an entry did.
#[derive(Clone, Copy, PartialEq, Eq)]
pub enum PutDone {
    /// It wasn't used for long, and was dropped.
    Idle,
    /// Its mask is too wide for the new tables, and it was dropped.
    Removed,
    /// It has the same actions and visits as before.
    Kept,
    /// It has the new actions and visits.
    Replaced,
}
