/// When flows are exported, as the header of a datagram tells it.
#[derive(Clone, Copy)]
pub struct ExportTime {
    /// Milliseconds since the run began.
    pub uptime: u32,
    /// Seconds since the beginning of 1970 (UTC).
    pub seconds: u32,
    /// Nanoseconds of the second that has begun.
    pub nanoseconds: u32,
}
