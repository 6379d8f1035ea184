/// A point in time at which a block of bundles begins: no frame of an earlier block is as late.
#[derive(Clone, Copy, PartialEq, Eq)]
pub struct SyncPoint {
    /// Nanoseconds since the epoch of the traces.
    pub time: u64,
    /// How many bundles stand before it.
    pub after: u32,
}
