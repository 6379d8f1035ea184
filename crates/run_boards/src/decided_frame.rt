use spec_actions::DpAction;

/// A frame that came in, and what was decided of it.
#[derive(Clone, Copy)]
pub struct DecidedFrame<'a> {
    /// Nanoseconds since the beginning of 1970 (UTC).
    pub time: u64,
    pub bytes: &'a [u8],
    pub actions: &'a [DpAction],
}
