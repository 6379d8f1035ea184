/// What the look of a frame found.
#[derive(Clone, Copy, PartialEq, Eq)]
pub enum Looked {
    /// The exact-match cache names this entry.
    Exact(u32),
    /// This megaflow covers the frame's key.
    Mega(u32),
    /// None does: the frame waits for an upcall.
    Miss,
}
