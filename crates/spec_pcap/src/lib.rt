//! The classic capture file of packets, read and written, after pcap-savefile(5) and the IETF draft "PCAP Capture
//! File Format" (draft-ietf-opsawg-pcap).
//!
//! A file is a header and then a record for each packet. The header has a magic number, which tells the byte order
//! and whether fractions of a second are micro- or nanoseconds, the version of the format, and the link type. A
//! record has the time, how many bytes were captured and how many the packet had on the wire, and then the captured
//! bytes. A *capture* is what a file holds: whether its fractions are nanoseconds, and its *frames*, each with its
//! time in nanoseconds and its bytes.
//!
//! - `Pcap`: the parts of a header and of a record, the capture of a file or the first fault in it, and the file of
//!   frames.
//!
//! This profile reads files of version 2.4 and link type Ethernet, in either byte order and either unit, whose frames
//! have at most 262,144 captured bytes. It looks neither at the time zone, its accuracy and the snap length in the
//! header nor at the length on the wire in a record. It writes files in little-endian order.
#![tactic(auto)]

mod fault;
mod format;

pub use fault::PcapFault;
pub use format::{ByteOrder, Format};
