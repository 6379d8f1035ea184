//! Traces of frames, read from classic capture files (pcap-savefile(5)).
//!
//! # What?
//!
//! A *trace* is the frames of a capture file, each with its time in nanoseconds. `read_trace` makes one of the bytes of
//! a file.
//!
//! # What is promised
//!
//! `spec_pcap` says which bytes are a capture file and what it holds. A file is read exactly where `spec_pcap` finds no
//! fault in it, and then the trace is what it holds. A file with a fault, one of more frames than there is room for
//! among them, is refused by the first one, with memory or without.
//!
//! Frames that are written again need not be taken apart: `Trace::records` lends the records of consecutive frames as one
//! slice, which is exactly what is written of them, as far as their records stand in the file like that.
//!
//! # How
//!
//! A trace keeps the file's bytes as they are, and lends the frames from them: nothing is copied. Beside the bytes it
//! keeps where each record begins, 8 bytes a frame. A first walk along the records tests and counts them, without
//! memory; then exactly as much memory as they need is taken, and a second walk fills it. So a file is refused before
//! it costs memory, and a record that was tested once is never tested again.
//!
//! A record stands as it is written if its numbers are in little-endian order, its fraction is in the unit of the file that
//! is written, and its frame was captured whole: its two lengths are the same.
//!
//! # What is left to others
//!
//! Opening and reading the file (`edge_io::read_all`), the parts of a header and of a record (`format`), and
//! writing (`writer`). Files of pcapng and of other link types are refused.

mod records;
mod trace;

pub use spec_pcap::PcapFault;
pub use trace::{Trace, read_trace};
