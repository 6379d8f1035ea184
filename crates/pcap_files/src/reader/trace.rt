ghost use Rattle.std.specs.Prelude.{◌≡◌, ◌+◌, ◌-◌, ◌/◌, ◌^◌, ◌<◌, ◌≤◌, ◌⊎◌, ◌==◌, false, [], Ok, Err, length, take, drop, All, IfOk, IfErr};
ghost use Rattle.std.specs.List.{flat_map};
ghost use Rattle.spec_pcap.specs.Pcap.{Capture, frame_number, record_of, second, snap_length, capture_of};
ghost use Rattle.pcap_files.specs.Records.{IsShort};

use crate::format::{
    RECORD_HEADER_LENGTH, SECOND, captured_at, format_of, fraction_at, seconds_at, unit_of,
};
use crate::reader::records::{count_records, is_as_written, starts_of};
use spec_pcap::{ByteOrder, Format, PcapFault};
use std::alloc::Global;
use std::marker::Model;

/// The frames of a capture file, at places counted from 1.
///
/// It keeps the file's bytes, and lends the frames from them. Its value is what the file holds.
#[derive(Drop)]
pub struct Trace {
    bytes: Vec<u8>,
    starts: Vec<usize>,
    format: Format,
}

impl Model for Trace {
    ghost use Rattle.spec_pcap.specs.Pcap.{Capture};
    ghost use Rattle.pcap_files.specs.Records.{capture_at, AreRecords};

    ghost Value = { Capture };

    ghost view = { λ t. capture_at t.format t.bytes.items t.starts.items };

    ghost invariant = { λ t. AreRecords t.format t.bytes.items t.starts.items };
}

impl Trace {
    /// A trace with no frames. It takes no memory.
    pub fn empty(alloc: Global) -> Trace
        ensures { result ≡ record { nanos = false; frames = [] } }
    {
        Trace {
            bytes: Vec::new(alloc),
            starts: Vec::new(alloc),
            format: Format {
                order: ByteOrder::LittleEndian,
                nanos: false,
            },
        }
    }

    /// Whether the file counts fractions of a second in nanoseconds.
    pub fn nanos(&self) -> bool
        ensures { result ≡ self.now.nanos }
    {
        self.format.nanos
    }

    /// How many frames there are. Each has at most 262,144 captured bytes.
    pub fn len(&self) -> usize
        ensures count { result ≡ length self.now.frames }
        ensures short { All IsShort self.now.frames }
    {
        self.starts.len()
    }

    pub fn is_empty(&self) -> bool
        ensures { result ≡ (length self.now.frames == 0) }
    {
        self.starts.is_empty()
    }

    /// When the frame at a place was captured, in nanoseconds since the beginning of 1970 (UTC).
    ///
    /// It is below 2^63, and its seconds fit in 32 bits, as whoever writes it to a capture file needs them.
    #[tactic(auto, unfolding(spec_pcap::specs::Pcap::record_fault))]
    pub fn time(&self, place: u32) -> u64
        requires first { 1 ≤ place }
        requires last { place ≤ length self.now.frames }
        ensures time { result ≡ (frame_number self.now.frames place).time }
        ensures seconds { result / second < 2 ^ 32 }
        ensures bound { result < 2 ^ 63 }
    {
        let at = self.starts[place as usize - 1];
        u64::from(seconds_at(&self.bytes, self.format, at)) * SECOND
            + u64::from(fraction_at(&self.bytes, self.format, at)) * unit_of(self.format.nanos)
    }

    /// The captured bytes of the frame at a place, at most 262,144.
    #[tactic(auto, unfolding(spec_pcap::specs::Pcap::record_fault))]
    pub fn frame(&self, place: u32) -> &[u8]
        requires first { 1 ≤ place }
        requires last { place ≤ length self.now.frames }
        ensures bytes { result.now ≡ (frame_number self.now.frames place).bytes }
        ensures len { length result.now ≤ snap_length }
    {
        let at = self.starts[place as usize - 1];
        let begin = at + RECORD_HEADER_LENGTH;
        &self.bytes[begin..begin + captured_at(&self.bytes, self.format, at) as usize]
    }

    /// The records of the frames from a place on, as they are written in a file in nano- or microseconds: of how many of
    /// these frames, at most so many, the records stand in the bytes like that, one after the other, and their bytes.
    pub fn records(&self, place: u32, most: u32, nanos: bool) -> (u32, &[u8])
        requires first { 1 ≤ place }
        requires some { 1 ≤ most }
        requires last { place + most ≤ length self.now.frames + 1 }
        ensures few { result.0 ≤ most }
        ensures bytes { result.1.now
            ≡ flat_map (record_of nanos) (take result.0 (drop (place - 1) self.now.frames)) }
    {
        let first = place as usize - 1;
        let begin = self.starts[first];
        let mut end = begin;
        let mut count: u32 = 0;
        'records: while count < most {
            let at = self.starts[first + count as usize];
            if at != end || !is_as_written(&self.bytes, self.format, at, nanos) {
                break;
            }
            end = at + RECORD_HEADER_LENGTH + captured_at(&self.bytes, self.format, at) as usize;
            count += 1;
        }
        (count, &self.bytes[begin..end])
    }
}

/// Reads the bytes of a capture file of at most `room` frames: version 2.4 and link type Ethernet, in either byte order
/// and either unit.
///
/// # Errors
///
/// The first fault from the front of the file, as `capture_of` has it: of the header `ShortHeader`, `Magic`, `Version`,
/// then `LinkType`; and of each record `TooManyFrames`, `ShortRecord` for its header, `TooLong`, `ShortRecord` for its
/// bytes, then `Fraction`. It takes no memory to find one. `OutOfMemory` comes only of a file that has no fault.
pub fn read_trace(alloc: Global, bytes: Vec<u8>, room: usize) -> Result<Trace, PcapFault>
    ensures ok { IfOk result (λ trace. capture_of room bytes.items ≡ Ok trace) }
    ensures count { IfOk result (λ trace. length trace.frames ≤ room) }
    ensures fault { (fault : PcapFault) → capture_of room bytes.items ≡ Err fault → result ≡ Err fault }
    ensures cause { IfErr result (λ fault. (fault ≡ PcapFault.OutOfMemory) ⊎ (capture_of room bytes.items ≡ Err fault)) }
{
    let format = format_of(&bytes)?;
    let count = count_records(&bytes, format, room)?;
    let Ok(starts) = starts_of(alloc, &bytes, format, count) else {
        return Err(PcapFault::OutOfMemory);
    };
    Ok(Trace {
        bytes,
        starts,
        format,
    })
}
