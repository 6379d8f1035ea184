/// Why bytes were not read as a capture file. Offsets are in bytes from the beginning of the file.
#[derive(Clone, Copy, Debug, PartialEq, Eq)]
pub enum PcapFault {
    /// There are fewer than 24 bytes.
    ShortHeader,
    /// The file doesn't begin with one of the four magic numbers; a file in the format pcapng doesn't.
    Magic,
    /// The version isn't 2.4.
    Version { major: u16, minor: u16 },
    /// The link type isn't Ethernet.
    LinkType(u16),
    /// The record at this offset has fewer bytes than its header needs, or than were captured by it.
    ShortRecord { at: usize },
    /// The record at this offset has `n` captured bytes, which are more than 262,144.
    TooLong { at: usize, n: u32 },
    /// The fraction of the time of the record at this offset is a second or more.
    Fraction { at: usize },
    /// After as many records as there was room for there are more bytes.
    TooManyFrames,
    /// There was no memory for where the records begin.
    OutOfMemory,
}
