//! Capture files (pcap-savefile(5)) that are written through a shelf, frame by frame.
//!
//! # What?
//!
//! A `PcapWriter` creates a file and writes its header, then a record for each frame, and closes it. Where whoever has
//! the shelf creates and closes the file, a writer begins with the header.
//!
//! # What is promised
//!
//! `spec_pcap` says which bytes the file of given frames has. After each call that is `Ok`, the file has exactly the
//! header and the records so far, and no bytes wait in a buffer. After a refusal a prefix of the header or of the
//! record was written, and nothing else.
//!
//! # How
//!
//! A writer keeps nothing but the unit of its fractions of a second. It hands each record's header and the frame's
//! bytes to the shelf, which buffers them if it likes.
//!
//! # What is left to others
//!
//! The order of the frames that are written, and which file of a shelf is in use: a writer writes to the one that is.
//! That what was written is read back is a law (`output_laws`).

mod writer;

pub use writer::PcapWriter;
