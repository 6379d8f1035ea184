//! Files read whole.
ghost use Rattle.std.specs.Prelude.{◌^◌, ◌≤◌, length, IfOk};
ghost use Rattle.rule_tables.specs.History.{newest, rules_of};
ghost use Rattle.pipe_model.specs.Runnable.{AreRunnable};

use anyhow::{Result, anyhow, bail};
use edge_io::read_all;
use edge_io::real::RealShelf;
use edit_script::{MOST_BYTES, ReadEdits, read_script};
use pcap_files::reader::{Trace, read_trace};
use rule_tables::VersionedRules;

/// The most bytes and frames of a capture file.
const MOST_CAPTURE_BYTES: usize = 1 << 30;

const MOST_FRAMES: usize = 1 << 24;

fn bytes_of(rt: &HostRuntime, name: &str, most: usize) -> Result<Vec<u8>>
    ensures { IfOk result (λ bytes. length bytes.items ≤ most) }
{
    read_all(rt.alloc(), &mut RealShelf::new(rt), name, most).map_err(|fault| anyhow!(
        "{name}: the file is not read: {fault:?}"
    ))
}

/// Reads the bytes of a file of edits.
pub fn read_edits_bytes(rt: &HostRuntime, name: &str) -> Result<Vec<u8>>
    ensures { IfOk result (λ bytes. length bytes.items ≤ 33_554_432) }
{
    bytes_of(rt, name, MOST_BYTES)
}

/// Reads the rules that a file of edits makes.
pub fn read_rules(rt: &HostRuntime, name: &str) -> Result<VersionedRules>
    ensures { IfOk result (λ rules. AreRunnable (rules_of rules (newest rules))) }
{
    let bytes = read_edits_bytes(rt, name)?;
    let Ok(read) = read_script(rt.alloc(), &bytes) else {
        bail!("{name}: this is no file of edits");
    };
    let ReadEdits { rules, .. } = read;
    let Some(rules) = rules else {
        bail!("{name}: the edits change too many rules");
    };
    Ok(rules)
}

/// Reads a capture file.
pub fn read_capture(rt: &HostRuntime, name: &str) -> Result<Trace>
    ensures { IfOk result (λ trace. length trace.frames ≤ 2 ^ 24) }
{
    let bytes = bytes_of(rt, name, MOST_CAPTURE_BYTES)?;
    read_trace(rt.alloc(), bytes, MOST_FRAMES).map_err(|fault| anyhow!(
        "{name}: this is no capture file of Ethernet: {fault:?}"
    ))
}
