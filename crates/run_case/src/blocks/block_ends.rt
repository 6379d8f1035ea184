//! Where the blocks of a trace end.
ghost use Rattle.std.specs.Prelude.{◌≡◌, ◌+◌, ◌≤◌, ◌^◌, ◌<◌, nat_lt, count_by, drop, length, map, IfOk};
ghost use Rattle.spec_case.specs.Blocks.{frames_before};
ghost use Rattle.run_case.specs.Places.{IsCounted, AreCounted, ends_of};

use pcap_files::reader::Trace;
use spec_tables::SyncPoint;
use std::alloc::{AllocError, Global};
use std::marker::Model;

/// The last place of each block of one trace.
#[derive(Drop)]
pub struct BlockEnds(Vec<u32>);

impl Model for BlockEnds {
    ghost use Rattle.std.specs.Prelude.{ℕ, List};

    ghost Value = { List ℕ };

    ghost view = { λ e. e.0.items };
}

impl BlockEnds {
    /// The places, block by block, counted from 1; 0 where no frame came in by then.
    pub fn as_slice(&self) -> &[u32]
        ensures { result.now ≡ self.now }
    {
        self.0.as_slice()
    }
}

// The last place of the block that begins after a place and ends at a time.
fn end_of_block(trace: &Trace, after: u32, time: u64) -> u32
    requires counted { IsCounted trace.now }
    requires within { after ≤ length trace.now.frames }
    ensures end { result ≡ after + frames_before time (drop after trace.now.frames) }
    ensures within { result ≤ length trace.now.frames }
{
    let count = trace.len() as u32;
    let mut place = after;
    while place < count && trace.time(place + 1) < time {
        place += 1;
    }
    place
}

fn block_ends(alloc: Global, syncs: &[SyncPoint], trace: &Trace) -> Result<BlockEnds, AllocError>
    requires { IsCounted trace.now }
    ensures { IfOk result (λ ends. ends ≡ ends_of syncs.now trace.now) }
{
    let mut ends = Vec::with_capacity(alloc, syncs.len() + 1)?;
    let mut place = 0;
    for sync in syncs {
        place = end_of_block(trace, place, sync.time);
        ends.push_reserved(place);
    }
    ends.push_reserved(trace.len() as u32);
    Ok(BlockEnds(ends))
}

/// Where the blocks of each trace end: one walk along each. It takes 4 bytes for each block of each trace.
pub fn all_block_ends(
    alloc: Global,
    syncs: &[SyncPoint],
    traces: &[Trace],
) -> Result<Vec<BlockEnds>, AllocError>
    requires { AreCounted traces.now }
    ensures { IfOk result (λ all. all.items ≡ map (ends_of syncs.now) traces.now) }
{
    let mut all = Vec::with_capacity(alloc, traces.len())?;
    for trace in traces {
        all.push_reserved(block_ends(alloc, syncs, trace)?);
    }
    Ok(all)
}

/// The block of a place: as many blocks end before it.
pub fn block_of(ends: &[u32], place: u32) -> u32
    requires { length ends.now < 2 ^ 32 }
    ensures { result ≡ count_by (λ end. nat_lt end place) ends.now }
{
    ends.iter().filter(|end| **end < place).count() as u32
}
