/// Which byte of a number comes first.
#[derive(Clone, Copy)]
pub enum ByteOrder {
    /// The least significant one.
    LittleEndian,
    /// The most significant one.
    BigEndian,
}

/// How a file writes its numbers.
#[derive(Clone, Copy)]
pub struct Format {
    pub order: ByteOrder,
    /// Whether fractions of a second are counted in nanoseconds. Else they are in microseconds.
    pub nanos: bool,
}
