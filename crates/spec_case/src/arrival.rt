/// When and where a frame came in. Arrivals are ordered by time, of equal times by ingress port, and then by place.
#[derive(Clone, Copy, PartialEq, Eq, PartialOrd, Ord)]
pub struct Arrival {
    /// Nanoseconds since the epoch of the trace.
    pub time: u64,
    /// The ingress port.
    pub port: u16,
    /// The place in that port's trace, from 1.
    pub place: u32,
}
