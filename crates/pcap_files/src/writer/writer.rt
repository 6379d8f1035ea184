ghost use Rattle.std.specs.Prelude.{◌≡◌, ◌++◌, ◌/◌, ◌<◌, ◌^◌, length, IsTrue, OnOk, OnErr, IfOk};
ghost use Rattle.spec_pcap.specs.Pcap.{second, header, record_of};
ghost use Rattle.pcap_files.specs.Writing.{IsNotStarted};
ghost use Rattle.edge_io.specs.declared.outside.InUse.TheVariants.{Nothing, Created};
ghost use Rattle.edge_io.specs.Counts.{HasCause, with_write_fault};
ghost use Rattle.edge_io.specs.Shelf.{closed};
ghost use Rattle.edge_io.specs.Written.{WritesAll};

use crate::format::{header, record_header};
use edge_io::{Failed, Shelf, write_all};
use std::marker::Model;

/// Writes a capture file to the created file of a shelf.
///
/// It takes no memory of its own, and hands on the shelf's answers. Its value is whether the file counts fractions of
/// a second in nanoseconds.
#[derive(Drop)]
pub struct PcapWriter {
    nanos: bool,
}

impl Model for PcapWriter {
    ghost use Rattle.std.specs.Prelude.{Bool};

    ghost Value = { Bool };

    ghost view = { λ writer. writer.nanos };
}

impl PcapWriter {
    /// Creates a file under a name, and writes the header of a capture file in nano- or microseconds.
    pub fn start<S: Shelf>(shelf: &mut S, name: &str, nanos: bool) -> Result<PcapWriter, Failed>
        requires { S.in_use shelf.old ≡ Nothing }
        ensures nanos { IfOk result (λ writer. writer ≡ nanos) }
        ensures in_use { OnOk result (S.in_use shelf.new ≡ Created) }
        ensures ok { IsTrue S.tells → OnOk result
            (S.told shelf.new ≡ record (S.told shelf.old) { current = header nanos; last = name.now }) }
        ensures err { IsTrue S.tells → OnErr result
            (IsNotStarted (S.in_use shelf.new) (S.told shelf.old) (S.told shelf.new) name.now (header nanos) result) }
        ensures cause { HasCause with_write_fault (S.counts shelf.old) (S.counts shelf.new) result }
    {
        shelf.create_file(name)?;
        PcapWriter::begin(shelf, nanos)
    }

    /// Writes the header of a capture file in nano- or microseconds to a file that was created.
    pub fn begin<S: Shelf>(shelf: &mut S, nanos: bool) -> Result<PcapWriter, Failed>
        requires { S.in_use shelf.old ≡ Created }
        ensures nanos { IfOk result (λ writer. writer ≡ nanos) }
        ensures writes { WritesAll S.Shelf shelf.old shelf.new (header nanos) result }
    {
        write_all(shelf, &header(nanos))?;
        Ok(PcapWriter { nanos })
    }

    /// Writes the record of a frame. Its time is in nanoseconds since the beginning of 1970 (UTC), and is cut to the
    /// unit of the file.
    ///
    /// After a refusal a prefix of the record was written.
    pub fn frame<S: Shelf>(&mut self, shelf: &mut S, time: u64, bytes: &[u8]) -> Result<(), Failed>
        requires in_use { S.in_use shelf.old ≡ Created }
        requires seconds { time / second < 2 ^ 32 }
        requires len { length bytes.now < 2 ^ 32 }
        ensures nanos { self.new ≡ self.old }
        ensures writes { let bytes_of_record = record_of self.old (record { time = time; bytes = bytes.now }) in
            WritesAll S.Shelf shelf.old shelf.new bytes_of_record result }
    {
        write_all(shelf, &record_header(self.nanos, time, bytes.len() as u32))?;
        write_all(shelf, bytes)
    }

    /// Closes the file. Whatever the answer is, it is closed with the bytes that were written.
    pub fn end<S: Shelf>(self, shelf: &mut S) -> Result<(), Failed>
        requires { S.in_use shelf.old ≡ Created }
        ensures in_use { S.in_use shelf.new ≡ Nothing }
        ensures told { IsTrue S.tells → S.told shelf.new ≡ closed (S.told shelf.old) }
        ensures cause { HasCause with_write_fault (S.counts shelf.old) (S.counts shelf.new) result }
    {
        shelf.close_file()
    }
}
