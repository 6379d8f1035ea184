//! Runs over great traces, which are made while they are read.
//!
//! They are texts as those of other runs, but for their traces: these have the header of the file, and then items
//! `LENGTH*TIMES`, frames of so many bytes at 0 seconds. What they write is let go.

use crate::made::{MadeFile, MadeShelf, Piece};
use edge_io::memory::MemorySink;
use std::alloc::{AllocError, Global};
use std::process::Abort;
use std::sync::Wait;
use std::thread::Threads;
use switch_runs::bytes::{lines_of, push_headers};
use switch_runs::running::status_of;
use switch_runs::texts::{RunText, Unread, cut_word, number_of, said_by};

// The words of these runs.
const WORDS: &str = "shows words trace status prints";

const FRAME_LIMITS: &str = "\
shows all frames in one trace
trace a.pcap micros 0*131072
trace b.pcap micros
prints ports=2 frames=131072 edits=0 blocks=1|exact=131070 mega=1 miss=1
prints installed=1 present=0 full=0|sent=0 dropped=131072 entries=1

shows a frame more
trace a.pcap micros 0*131073
trace b.pcap micros
status 7
prints limit: frames 131072

shows two halves
words edits out 1=a.pcap 2=b.pcap
trace a.pcap micros 0*65536
trace b.pcap micros 0*65536
prints ports=2 frames=131072 edits=0 blocks=1|exact=131068 mega=2 miss=2
prints installed=2 present=0 full=0|sent=0 dropped=131072 entries=2

shows a frame more in a half
words edits out 1=a.pcap 2=b.pcap
trace a.pcap micros 0*65536
trace b.pcap micros 0*65537
status 7
prints limit: frames 131072";

// A record of the first kind has 262,144 bytes, so one of the second ends a file of 2 ^ 28 bytes or of 2 ^ 27.
const BYTE_LIMITS: &str = "\
shows all bytes in one trace
trace a.pcap micros 262128*1023 262104*1
trace b.pcap micros 262128*1023 262104*1
prints ports=2 frames=1024 edits=0 blocks=1|exact=1022 mega=1 miss=1
prints installed=1 present=0 full=0|sent=0 dropped=1024 entries=1

shows a byte more
trace a.pcap micros 262128*1023 262105*1
trace b.pcap micros 262128*1023 262104*1
status 7
prints limit: trace-bytes 268435456

shows a byte more, and a faulty header
trace a.pcap 000000000000000000000000000000000000000000000000 262128*1023 262105*1
trace b.pcap micros 262128*1023 262104*1
status 7
prints limit: trace-bytes 268435456

shows two halves
words edits out 1=a.pcap 2=b.pcap
trace a.pcap micros 262128*511 262104*1
trace b.pcap micros 262128*511 262104*1
prints ports=2 frames=1024 edits=0 blocks=1|exact=1020 mega=2 miss=2
prints installed=2 present=0 full=0|sent=0 dropped=1024 entries=2

shows a byte more in a half
words edits out 1=a.pcap 2=b.pcap
trace a.pcap micros 262128*511 262104*1
trace b.pcap micros 262128*511 262105*1
status 7
prints limit: trace-bytes 268435456";

// A record of a frame of so many bytes, at 0 seconds.
fn record_of(alloc: Global, len: u32) -> Result<Vec<u8>, AllocError> {
    let mut record = vec![in alloc; 0; 8]?;
    record.extend_from_slice(&len.to_le_bytes())?;
    record.extend_from_slice(&len.to_le_bytes())?;
    record.extend_from_slice(&vec![in alloc; 0; len as usize]?)?;
    Ok(record)
}

fn push_piece(pieces: &mut Vec<Piece>, bytes: Vec<u8>, times: usize) -> Result<(), AllocError> {
    pieces.push(Piece { bytes, times })?;
    Ok(())
}

// Adds frames of a length, so many times.
fn push_frames(alloc: Global, pieces: &mut Vec<Piece>, item: &str) -> Result<(), Unread> {
    let Some((len, times)) = item.split_once('*') else {
        return Err(Unread::Malformed);
    };
    let Ok(len) = u32::try_from(number_of(len)?) else {
        return Err(Unread::Malformed);
    };
    let times = number_of(times)? as usize;
    push_piece(pieces, record_of(alloc, len)?, times)?;
    Ok(())
}

// Adds a header, and then frames.
fn push_pieces(alloc: Global, pieces: &mut Vec<Piece>, items: &str) -> Result<(), Unread> {
    let (header, frames) = cut_word(items);
    let mut bytes = Vec::new(alloc);
    push_headers(&mut bytes, header)?;
    push_piece(pieces, bytes, 1)?;
    for item in frames.split_ascii_whitespace() {
        push_frames(alloc, pieces, item)?;
    }
    Ok(())
}

fn push_file(
    alloc: Global,
    files: &mut Vec<MadeFile>,
    name: &str,
    pieces: Vec<Piece>,
) -> Result<(), AllocError> {
    let name = String::from_str(alloc, name)?;
    files.push(MadeFile { name, pieces })?;
    Ok(())
}

// Adds a trace, whose name comes first.
fn push_trace(alloc: Global, files: &mut Vec<MadeFile>, said: &str) -> Result<(), Unread> {
    let (name, items) = cut_word(said);
    let mut pieces = Vec::new(alloc);
    push_pieces(alloc, &mut pieces, items)?;
    push_file(alloc, files, name, pieces)?;
    Ok(())
}

// The traces of a run.
fn traces_of(alloc: Global, text: RunText<'_>) -> Result<Vec<MadeFile>, Unread> {
    let mut traces = Vec::new(alloc);
    for line in text.text_with("trace").lines() {
        if let Some(said) = said_by(line, "trace") {
            push_trace(alloc, &mut traces, said)?;
        }
    }
    Ok(traces)
}

// Whether a run ends with its status, and prints what it says.
fn ends_as_told<R: Threads + Wait + Sync>(
    rt: &R,
    alloc: Global,
    text: RunText<'_>,
) -> Result<bool, Unread> {
    if !text.is_made_of(WORDS) {
        return Err(Unread::Malformed);
    }
    let mut shelf = MadeShelf::new(traces_of(alloc, text)?);
    let mut say = MemorySink::new(alloc, Vec::new(alloc));
    let status = status_of(rt, alloc, text.words(), &mut shelf, &mut say);
    drop(shelf);
    let printed = has_printed(alloc, &say, text);
    drop(say);
    Ok(u64::from(status?) == text.number("status", 0)? && printed?)
}

fn has_printed(alloc: Global, say: &MemorySink, text: RunText<'_>) -> Result<bool, AllocError> {
    let lines = lines_of(alloc, text, "prints")?;
    Ok(say.text() == lines.as_slice())
}

// Asserts that the runs of a table end as they show, and that it has so many.
fn assert_ends<R: Threads + Wait + Sync + Abort>(rt: &R, alloc: Global, table: &str, count: usize) {
    let mut runs = 0_usize;
    for own in table.split("\n\n") {
        let text = RunText::new(own, "");
        assert!(rt;
            ends_as_told(rt, alloc, text).unwrap_or(false),
            "{}",
            text.shows()
        );
        runs = runs.saturating_add(1);
    }
    assert!(rt; runs == count, "{runs}");
}

// All traces have at most 131,072 frames, and at most 268,435,456 bytes.
#[test]
fn frames_and_bytes_of_all_traces_are_limited(rt: HostRuntime) {
    assert_ends(&rt, rt.alloc(), FRAME_LIMITS, 4);
    assert_ends(&rt, rt.alloc(), BYTE_LIMITS, 5);
}
