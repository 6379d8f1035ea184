ghost use Rattle.std.specs.Prelude.{◌≡◌, ◌+◌, ◌-◌, ◌/◌, ◌^◌, ◌<◌, ◌≤◌, ◌==◌, Some, All, length, map, take, drop, position, slice_get};
ghost use Rattle.std.specs.List.{flat_map};
ghost use Rattle.spec_pcap.specs.Pcap.{record_of, second, snap_length};
ghost use Rattle.spec_tables.specs.Bundles.{AreBundles};
ghost use Rattle.spec_case.specs.Run.{edit_count, last_version, frame_at, frames_of, is_nanos};
ghost use Rattle.spec_case.specs.Blocks.{AreInOrder, block_ends, last_block, last_place, lo, hi};
ghost use Rattle.pcap_files.specs.Records.{IsShort};
ghost use Rattle.run_case.specs.Places.{HasPort, HasPlace, AreCounted, ends_of};

use crate::blocks::{BlockEnds, Ports, all_block_ends, block_of};
use crate::case::Case;
use crate::keyed::Keyed;
use frame_keys::key_of;
use pcap_files::reader::Trace;
use spec_tables::SyncPoint;
use std::alloc::{AllocError, Global};
use std::marker::PhantomData;

/// What one run is given, of its edits and bundles their numbers, and where the blocks of its traces end.
///
/// Ports stand in the order of the words, the trace of each at the same place. Places of a trace are counted from 1,
/// blocks from 0, and times are in nanoseconds.
#[derive(Drop)]
pub struct RunData<C: Case> {
    ports: Ports,
    edits: u32,
    bundles: u32,
    syncs: Vec<SyncPoint>,
    traces: Vec<Trace>,
    ends: Vec<BlockEnds>,
    of: PhantomData<C>,
    ghost ports_are: { ports ≡ C.run.ports },
    ghost edits_are: { edits ≡ edit_count C.run },
    ghost bundles_are: { bundles ≡ last_version C.run },
    ghost bundled: { AreBundles C.run.bundles (edit_count C.run) },
    ghost syncs_are: { syncs.items ≡ C.run.syncs },
    ghost traces_are: { traces.items ≡ C.run.traces },
    ghost ends_are: { ends.items ≡ map (ends_of C.run.syncs) C.run.traces },
    ghost one_each: { length C.run.traces ≡ length C.run.ports },
    ghost in_order: { AreInOrder C.run.syncs (last_version C.run) },
    ghost few_syncs: { length C.run.syncs + 1 < 2 ^ 32 },
    ghost counted: { AreCounted C.run.traces },
}

impl<C: Case> RunData<C> {
    /// The data of a run. It walks along each trace once, and keeps 4 bytes for each block of each port; there may be
    /// no memory for them.
    pub fn new(
        alloc: Global,
        ports: Ports,
        edits: u32,
        bundles: u32,
        syncs: Vec<SyncPoint>,
        traces: Vec<Trace>,
    ) -> Result<RunData<C>, AllocError>
        requires ports { ports ≡ C.run.ports }
        requires edits { edits ≡ edit_count C.run }
        requires bundles { bundles ≡ last_version C.run }
        requires bundled { AreBundles C.run.bundles (edit_count C.run) }
        requires syncs { syncs.items ≡ C.run.syncs }
        requires traces { traces.items ≡ C.run.traces }
        requires one_each { length C.run.traces ≡ length C.run.ports }
        requires in_order { AreInOrder C.run.syncs (last_version C.run) }
        requires few_syncs { length C.run.syncs + 1 < 2 ^ 32 }
        requires counted { AreCounted C.run.traces }
    {
        let ends = all_block_ends(alloc, &syncs, &traces)?;
        Ok(RunData {
            ports,
            edits,
            bundles,
            syncs,
            traces,
            ends,
            of: PhantomData,
        })
    }

    pub fn ports(&self) -> &Ports
        ensures { result.now ≡ C.run.ports }
    {
        &self.ports
    }

    /// How many blocks there are: one more than sync points.
    pub fn blocks(&self) -> u32
        ensures { result ≡ last_block C.run + 1 }
    {
        self.last_block() + 1
    }

    /// The last block: it has a number as high as there are sync points.
    pub fn last_block(&self) -> u32
        ensures block { result ≡ last_block C.run }
        ensures bound { result + 1 < 2 ^ 32 }
        ensures in_order { AreInOrder C.run.syncs (last_version C.run) }
    {
        self.syncs.len() as u32
    }

    /// How many bundles stand before a block: the oldest version of its frames.
    pub fn lo(&self, block: u32) -> u32
        requires { block ≤ last_block C.run }
        ensures number { result ≡ lo C.run block }
        ensures order { result ≤ hi C.run block }
    {
        if block == 0 { 0 } else { self.hi(block - 1) }
    }

    /// How many bundles stand before the end of a block: the newest version of its frames.
    pub fn hi(&self, block: u32) -> u32
        requires { block ≤ last_block C.run }
        ensures number { result ≡ hi C.run block }
        ensures order { lo C.run block ≤ result }
        ensures bound { result ≤ last_version C.run }
    {
        if block < self.last_block() {
            self.syncs[block as usize].after
        } else {
            self.last_version()
        }
    }

    /// The last version of the tables: how many bundles there are.
    pub fn last_version(&self) -> u32
        ensures { result ≡ last_version C.run }
    {
        self.bundles
    }

    /// How many edits there are: no rule has a greater number.
    pub fn edit_count(&self) -> u32
        ensures count { result ≡ edit_count C.run }
        ensures bundled { AreBundles C.run.bundles (edit_count C.run) }
    {
        self.edits
    }

    // The place of a port among the ports, and of its trace among the traces.
    fn place_of(&self, port: u16) -> usize
        requires { HasPort C.run.ports port }
        ensures place { position (λ p. p == port) C.run.ports ≡ Some result }
        ensures within { result < length C.run.ports }
    {
        match self.ports.find(port) {
            Some(place) => place as usize,
            None => unreachable!(),
        }
    }

    fn trace(&self, port: u16) -> &Trace
        requires { HasPort C.run.ports port }
        ensures frames { result.now.frames ≡ frames_of C.run port }
        ensures counted { length (frames_of C.run port) + 1 < 2 ^ 32 }
    {
        &self.traces[self.place_of(port)]
    }

    fn block_ends(&self, port: u16) -> &[u32]
        requires { HasPort C.run.ports port }
        ensures { result.now ≡ block_ends C.run port }
    {
        self.ends[self.place_of(port)].as_slice()
    }

    // The trace of a port, and the ends of its blocks.
    fn of_port(&self, port: u16) -> (&Trace, &[u32])
        requires { HasPort C.run.ports port }
        ensures frames { result.0.now.frames ≡ frames_of C.run port }
        ensures ends { result.1.now ≡ block_ends C.run port }
    {
        let place = self.place_of(port);
        (&self.traces[place], self.ends[place].as_slice())
    }

    /// How many frames the trace of a port has. Each has at most 262,144 captured bytes.
    pub fn frames(&self, port: u16) -> u32
        requires { HasPort C.run.ports port }
        ensures count { result ≡ length (frames_of C.run port) }
        ensures short { All IsShort (frames_of C.run port) }
        ensures bound { result + 1 < 2 ^ 32 }
    {
        self.trace(port).len() as u32
    }

    /// The captured bytes of a frame, at most 262,144.
    pub fn frame(&self, port: u16, place: u32) -> &[u8]
        requires port { HasPort C.run.ports port }
        requires place { HasPlace C.run port place }
        ensures bytes { result.now ≡ (frame_at C.run port place).bytes }
        ensures len { length result.now ≤ snap_length }
    {
        self.trace(port).frame(place)
    }

    /// When a frame was captured, in nanoseconds since the beginning of 1970 (UTC).
    pub fn time(&self, port: u16, place: u32) -> u64
        requires port { HasPort C.run.ports port }
        requires place { HasPlace C.run port place }
        ensures time { result ≡ (frame_at C.run port place).time }
        ensures seconds { result / second < 2 ^ 32 }
        ensures bound { result < 2 ^ 63 }
    {
        self.trace(port).time(place)
    }

    /// The records of a port's frames from a place on, as they are written in a file in nano- or microseconds: of how many
    /// of these frames, at most so many, the records stand in its trace like that, one after the other, and their bytes.
    pub fn records(&self, port: u16, place: u32, most: u32, nanos: bool) -> (u32, &[u8])
        requires port { HasPort C.run.ports port }
        requires first { 1 ≤ place }
        requires some { 1 ≤ most }
        requires last { place + most ≤ length (frames_of C.run port) + 1 }
        ensures few { result.0 ≤ most }
        ensures bytes { result.1.now
            ≡ flat_map (record_of nanos) (take result.0 (drop (place - 1) (frames_of C.run port))) }
    {
        self.trace(port).records(place, most, nanos)
    }

    /// The last place of a port's trace that is in a block or before it; 0 where there is none.
    pub fn last_place(&self, port: u16, block: u32) -> u32
        requires port { HasPort C.run.ports port }
        requires block { block ≤ last_block C.run }
        ensures place { result ≡ last_place C.run port block }
        ensures within { result ≤ length (frames_of C.run port) }
        ensures all { block ≡ last_block C.run → result ≡ length (frames_of C.run port) }
    {
        self.block_ends(port)[block as usize]
    }

    /// A frame with its key, length, time and block.
    pub fn keyed(&self, port: u16, place: u32) -> Keyed<C>
        requires port { HasPort C.run.ports port }
        requires place { HasPlace C.run port place }
        ensures port { result.port ≡ port }
        ensures place { result.place ≡ place }
    {
        let (trace, ends) = self.of_port(port);
        let frame = trace.frame(place);
        Keyed {
            port,
            place,
            key: key_of(port, frame),
            length: frame.len() as u32,
            time: trace.time(place),
            block: block_of(ends, place),
            of: PhantomData,
        }
    }

    /// Whether a trace of the run has times in nanoseconds.
    pub fn nanos(&self) -> bool
        ensures { result ≡ is_nanos C.run }
    {
        self.traces.iter().any(|trace| trace.nanos())
    }
}
