//! Classic capture files (pcap-savefile(5)): the bytes of their headers and records, reading and writing.
//!
//! # The parts
//!
//! - `format`: the header of a file and of a record, in bytes.
//! - `reader`: a whole file as its frames with their times, or what is wrong with it and where.
//! - `writer`: a file, written record by record to a shelf of `edge_io`.
//!
//! What the frames mean is left to others.
#![tactic(auto)]

pub mod format;
pub mod reader;
pub mod writer;
