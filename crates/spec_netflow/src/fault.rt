/// Why bytes were not read as datagrams. Each names the offset of a datagram, in bytes from the beginning.
#[derive(Clone, Copy, PartialEq, Eq)]
pub enum NetflowFault {
    /// Fewer bytes are left than a header has, or than the number of records needs.
    Short { at: usize },
    /// The version isn't 5.
    Version { at: usize },
    /// The number of records is 0 or above 30.
    Count { at: usize },
    /// The sequence number isn't the number of records before.
    Sequence { at: usize },
    /// There was no memory for the flows.
    OutOfMemory,
}
