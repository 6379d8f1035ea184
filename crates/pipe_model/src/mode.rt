/// Whether a translation goes on.
#[derive(Clone, Copy)]
pub(crate) enum Mode {
    Going,
    /// The list of actions that it was in has ended.
    ListEnded,
    /// It has ended as a whole.
    Stopped,
}
