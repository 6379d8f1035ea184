//! Runs over a shelf in memory.
ghost use Rattle.std.specs.Prelude.{◌≡◌, IfOk};
ghost use Rattle.edge_io.specs.declared.outside.InUse.TheVariants.{Nothing};

use crate::gates::Observer;
use edge_io::memory::{MemoryShelf, MemorySink};
use edge_io::{Gate, Shelf};
use std::alloc::{AllocError, Global};
use std::sync::Wait;
use std::thread::Threads;
use switch_app::run_switch;

// The status of a run that is done.
const DONE: u8 = 0;

// The header of a capture file: little-endian, in microseconds, version 2.4, snap length 262,144, Ethernet.
const HEADER: [u8; 24] = [
    0xd4, 0xc3, 0xb2, 0xa1, 2, 0, 4, 0, 0, 0, 0, 0, 0, 0, 0, 0, 0, 0, 4, 0, 1, 0, 0, 0,
];

// The begin of a frame of 60 bytes from 00:00:00:00:00:01 to 00:00:00:00:00:02, of no protocol that has headers.
const ETHERNET: [u8; 14] = [0, 0, 0, 0, 0, 2, 0, 0, 0, 0, 0, 1, 0x88, 0xb5];

const PAYLOAD: [u8; 46] = [0; 46];

/// A trace with such a frame at each of these seconds, and that so many times.
#[derive(Clone, Copy)]
pub struct Trace {
    pub name: &'static str,
    pub seconds: &'static [u8],
    pub times: u32,
}

/// What a run is made of. The edits are lines with `|` between them.
#[derive(Clone, Copy)]
pub struct Run {
    pub words: &'static [&'static str],
    pub edits: &'static str,
    pub traces: &'static [Trace],
}

fn text_of(alloc: Global, lines: &str) -> Result<Vec<u8>, AllocError> {
    let mut text = Vec::new(alloc);
    for byte in lines.as_bytes() {
        text.push(if *byte == b'|' { b'\n' } else { *byte })?;
    }
    Ok(text)
}

// Adds the record of a frame at a second.
fn push_record(file: &mut Vec<u8>, second: u8) -> Result<(), AllocError> {
    file.extend_from_slice(&[second, 0, 0, 0, 0, 0, 0, 0])?;
    file.extend_from_slice(&[60, 0, 0, 0, 60, 0, 0, 0])?;
    file.extend_from_slice(&ETHERNET)?;
    file.extend_from_slice(&PAYLOAD)
}

fn bytes_of(alloc: Global, trace: &Trace) -> Result<Vec<u8>, AllocError> {
    let mut file = HEADER.to_vec(alloc)?;
    for second in trace.seconds {
        for _ in 0..trace.times {
            push_record(&mut file, *second)?;
        }
    }
    Ok(file)
}

fn files_of(alloc: Global, run: &Run) -> Result<Vec<(String, Vec<u8>)>, AllocError> {
    let mut files = Vec::new(alloc);
    push_file(alloc, &mut files, "edits", text_of(alloc, run.edits)?)?;
    for trace in run.traces {
        push_file(alloc, &mut files, trace.name, bytes_of(alloc, trace)?)?;
    }
    Ok(files)
}

fn push_file(
    alloc: Global,
    files: &mut Vec<(String, Vec<u8>)>,
    name: &str,
    bytes: Vec<u8>,
) -> Result<(), AllocError> {
    files.push((String::from_str(alloc, name)?, bytes))?;
    Ok(())
}

fn shelf_of(alloc: Global, run: &Run) -> Result<MemoryShelf, AllocError>
    ensures { IfOk result (λ shelf. ⟦<MemoryShelf as Shelf>⟧.in_use shelf ≡ Nothing) }
{
    Ok(MemoryShelf::new(alloc, files_of(alloc, run)?, Vec::new(alloc)))
}

// How a run ended.
#[derive(Drop)]
struct Ended {
    status: u8,
    shelf: MemoryShelf,
}

impl Ended {
    // Whether its journal has a line.
    fn tells(&self, line: &str) -> bool {
        self.shelf.made().iter().any(|file| {
            file.0.as_str() == "out.journal" && has_line(&file.1, line.as_bytes())
        })
    }
}

fn has_line(text: &[u8], line: &[u8]) -> bool {
    text.split(|byte| *byte == b'\n').any(|found| found == line)
}

fn words_of(alloc: Global, texts: &[&str]) -> Result<Vec<String>, AllocError> {
    let mut words = Vec::new(alloc);
    for text in texts {
        words.push(String::from_str(alloc, text)?)?;
    }
    Ok(words)
}

// Runs the switch through a gate.
fn run_through<R: Threads + Wait + Sync, G: Gate + Sync>(
    rt: &R,
    alloc: Global,
    run: &Run,
    gate: &G,
) -> Result<Ended, AllocError> {
    let words = words_of(alloc, run.words)?;
    let mut shelf = shelf_of(alloc, run)?;
    let mut say = MemorySink::new(alloc, Vec::new(alloc));
    let status = run_switch(rt, alloc, &words, &mut shelf, &mut say, gate);
    drop(words);
    drop(say);
    Ok(Ended { status, shelf })
}

// Whether a run through a gate is done, and has these lines in its journal.
fn tells_through<R: Threads + Wait + Sync, G: Gate + Sync>(
    rt: &R,
    alloc: Global,
    run: &Run,
    gate: &G,
    lines: &[&str],
) -> Result<bool, AllocError> {
    let ended = run_through(rt, alloc, run, gate)?;
    let told = ended.status == DONE && lines.iter().all(|line| ended.tells(line));
    drop(ended);
    Ok(told)
}

/// Whether a run through a gate is done, has these lines in its journal, and passed the gate as it should.
pub fn passes<R: Threads + Wait + Sync, G: Observer + Sync + Drop>(
    rt: &R,
    alloc: Global,
    run: &Run,
    gate: G,
    lines: &[&str],
) -> Result<bool, AllocError> {
    let told = tells_through(rt, alloc, run, &gate, lines);
    let is_passed = gate.is_passed();
    drop(gate);
    Ok(told? && is_passed)
}
