//! The keys of the frames of the command.
ghost use Rattle.std.specs.Prelude.{◌≤◌, ◌^◌, length};

use frame_keys::key_of;
use ovs_fields::Key;
use pcap_files::reader::Trace;
use std::alloc::{AllocError, Global};

/// The keys of the frames of a trace, which come in at a port.
pub fn keys_of(alloc: Global, port: u16, trace: &Trace) -> Result<Vec<Key>, AllocError>
    requires { length trace.now.frames ≤ 2 ^ 24 }
{
    let mut keys = Vec::with_capacity(alloc, trace.len())?;
    for place in 1..=trace.len() as u32 {
        keys.push(key_of(port, trace.frame(place)))?;
    }
    Ok(keys)
}
