ghost use Rattle.std.specs.Prelude.{◌≡◌, ◌<◌, ◌≤◌, false, [], length, IfOk};
ghost use Rattle.edge_io.specs.declared.outside.InUse.TheVariants.{Nothing};
ghost use Rattle.edge_io.specs.Counts.{no_faults};
ghost use Rattle.edge_io.specs.Shelf.{untold};
ghost use Rattle.edge_io.specs.Real.{use_of};

use crate::{Failed, FaultCounts, Shelf, Sink, counted_fault};
use std::io::{self, BufWriter, ErrorKind, Read, Write};
use std::rt::Files;
use std::{fs, mem};

/// How many written bytes are gathered before they go to the system.
const BUFFER: usize = 64 * 1024;

/// How often a call that a signal interrupts is made, before it is an error.
pub const TRIES: usize = 1000;

/// Reads, and again where a signal interrupts it, up to `TRIES` times.
pub fn read_patiently<F: Read>(file: &mut F, into: &mut [u8]) -> io::Result<usize>
    ensures { IfOk result (λ n. n ≤ length into.new) }
{
    for _ in 1..TRIES {
        match file.read(into) {
            Err(e) if e.kind() == ErrorKind::Interrupted => {}
            answer => return answer,
        }
    }
    file.read(into)
}

/// Writes, and again where a signal interrupts it, up to `TRIES` times. One that takes none of the bytes is an error.
pub fn write_patiently<F: Write>(file: &mut F, bytes: &[u8]) -> io::Result<usize>
    ensures bound { IfOk result (λ n. n ≤ length bytes.now) }
    ensures some { IfOk result (λ n. 0 < length bytes.now → 0 < n) }
{
    for _ in 0..TRIES {
        match file.write(bytes) {
            Ok(0) if !bytes.is_empty() => return Err(io::Error::from(ErrorKind::WriteZero)),
            Err(e) if e.kind() == ErrorKind::Interrupted => {}
            answer => return answer,
        }
    }
    Err(io::Error::from(ErrorKind::Interrupted))
}

/// The file that is in use.
#[derive(Drop)]
enum Slot<F: Write + Drop> {
    Empty,
    Opened(F),
    Created(BufWriter<F>),
}

/// The files of the system, whose names are paths. It tells no bytes.
///
/// Every error of the system that a call answers is a fault, and is counted; a call that a signal
/// interrupts is made again first. Small writes are gathered, so the error of one may come at a later
/// write, or when the file is closed. Where there is no memory to gather them in, `create_file` leaves
/// an empty file.
///
/// What the system finds out only as it closes a file, or later, isn't seen: std's files close without
/// an answer, and to wait for the disk first costs too much. So a full quota or a lost server of a
/// network file system, and a disk that fails after it took the bytes, may go untold.
#[derive(Drop)]
pub struct RealShelf<'a, R: Files> {
    rt: &'a R,
    slot: Slot<R::File>,
    counts: FaultCounts,
}

impl<'a, R: Files + AllocGlobal> RealShelf<'a, R> {
    pub fn new(rt: &'a R) -> RealShelf<'a, R>
        ensures in_use { ⟦<RealShelf<'a, R> as Shelf>⟧.in_use result ≡ Nothing }
        ensures counts { ⟦<RealShelf<'a, R> as Shelf>⟧.counts result ≡ no_faults }
    {
        RealShelf {
            rt,
            slot: Slot::Empty,
            counts: FaultCounts::new(),
        }
    }
}

impl<R: Files + AllocGlobal> Shelf for RealShelf<'_, R> {
    ghost tells = { false };

    ghost told = { λ _. untold };

    ghost in_use = { λ s. use_of s.slot };

    ghost counts = { λ s. s.counts };

    fn open_file(&mut self, name: &str) -> Result<(), Failed> {
        match fs::open(self.rt, name) {
            Ok(file) => {
                self.slot = Slot::Opened(file);
                Ok(())
            }
            Err(_) => Err(self.counts.read_fault()),
        }
    }

    fn read(&mut self, into: &mut [u8]) -> Result<usize, Failed> {
        match &mut self.slot {
            Slot::Opened(file) => match read_patiently(file, into) {
                Ok(n) => Ok(n),
                Err(_) => Err(self.counts.read_fault()),
            },
            _ => unreachable!(),
        }
    }

    fn create_file(&mut self, name: &str) -> Result<(), Failed> {
        let Ok(file) = fs::create(self.rt, name) else {
            return Err(self.counts.write_fault());
        };
        match BufWriter::with_capacity(self.rt.alloc(), BUFFER, file) {
            Ok(writer) => {
                self.slot = Slot::Created(writer);
                Ok(())
            }
            Err(_) => Err(Failed::OutOfMemory),
        }
    }

    fn write(&mut self, bytes: &[u8]) -> Result<usize, Failed> {
        match &mut self.slot {
            Slot::Created(writer) => match write_patiently(writer, bytes) {
                Ok(n) => Ok(n),
                Err(_) => Err(self.counts.write_fault()),
            },
            _ => unreachable!(),
        }
    }

    fn close_file(&mut self) -> Result<(), Failed> {
        match mem::replace(&mut self.slot, Slot::Empty) {
            Slot::Created(mut writer) => match writer.flush() {
                Ok(()) => Ok(()),
                Err(_) => Err(self.counts.write_fault()),
            },
            _ => Ok(()),
        }
    }
}

/// Standard output, without a buffer. It tells no bytes, and counts every error as a fault.
#[derive(Drop)]
pub struct StdoutSink<'a, R: Print> {
    rt: &'a R,
    faults: u64,
}

impl<'a, R: Print> StdoutSink<'a, R> {
    pub fn new(rt: &'a R) -> StdoutSink<'a, R>
        ensures { ⟦<StdoutSink<'a, R> as Sink>⟧.faults result ≡ 0 }
    {
        StdoutSink { rt, faults: 0 }
    }
}

impl<R: Print> Sink for StdoutSink<'_, R> {
    ghost tells = { false };

    ghost written = { λ _. [] };

    ghost faults = { λ s. s.faults };

    ghost needs_memory = { false };

    fn write(&mut self, bytes: &[u8]) -> Result<usize, Failed> {
        for _ in 0..TRIES {
            match self.rt.write_some(bytes) {
                Ok(n) if n > 0 || bytes.is_empty() => return Ok(n),
                Err(e) if e.kind() == ErrorKind::Interrupted => {}
                _ => break,
            }
        }
        Err(counted_fault(&mut self.faults))
    }
}
