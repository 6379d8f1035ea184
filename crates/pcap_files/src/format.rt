//! The headers and the records of classic capture files (pcap-savefile(5)), in the bytes of a file.
//!
//! # What?
//!
//! A capture file is a header and then records, each a header of its own and the bytes of a frame. This crate reads the
//! header, and a record at an offset; and it makes the header of a file and that of a record, for whoever writes files.
//!
//! # What is promised
//!
//! Every answer is that of `spec_pcap`. `format_of` tells byte order and unit, or what is wrong with a header, and
//! `record_fault` what is wrong with a record, if anything; of a record that is whole, `seconds_at`, `fraction_at`,
//! `captured_at` and `wire_length_at` are its numbers. `header` and `record_header` are the bytes that a file and a record
//! begin with. No call takes memory.
//!
//! # How
//!
//! Each number is read where it stands, in the order that the file's magic number tells.
//!
//! # What is left to others
//!
//! The walk from record to record, and the frames (`reader`); the writing of a file (`writer`).

mod format;
mod number;
mod writing;

pub use format::{
    HEADER_LENGTH, RECORD_HEADER_LENGTH, SECOND, SNAP_LENGTH, captured_at, format_of, fraction_at,
    record_fault, seconds_at, unit_of, wire_length_at,
};
pub use writing::{header, record_header};
