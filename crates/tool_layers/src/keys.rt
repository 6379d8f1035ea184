//! `keys FILE ROUNDS`, by which `bench/keys` measures what the key of a frame costs: it makes the key of every frame of a
//! capture file in each round, and prints a number that all keys go into. `bench/keys.c` makes the same number.
ghost use Rattle.std.specs.Prelude.{◌^◌, ◌≤◌, length};

use crate::files::read_capture;
use crate::numbers::number_of;
use anyhow::{Result, bail};
use frame_keys::key_of;
use ovs_fields::{FieldId, Key, all_fields};
use pcap_files::reader::Trace;
use std::alloc::Global;
use std::fmt::Write;

/// The port at which all frames come in.
const PORT: u16 = 1;

/// A call of its own, so that the whole key is made whichever field is looked at.
#[inline(never)]
fn key_at_port(frame: &[u8]) -> Key {
    key_of(PORT, frame)
}

/// The number after the keys of all frames, of each of which one field goes in.
fn round(number: u128, field: FieldId, frames: &[&[u8]]) -> u128 {
    let mut number = number;
    for frame in frames {
        number = number.rotate_left(1) ^ key_at_port(frame).get(field);
    }
    number
}

/// A round looks at one field, and so none is left out.
fn rounds(count: u32, frames: &[&[u8]]) -> u128 {
    let fields = all_fields().iter().cycle();
    fields
        .take(count as usize)
        .fold(0, |number, field| round(number, *field, frames))
}

fn frames_of(alloc: Global, trace: &Trace) -> Result<Vec<&[u8]>>
    requires { length trace.now.frames ≤ 2 ^ 24 }
{
    let mut frames = Vec::with_capacity(alloc, trace.len())?;
    for place in 1..=trace.len() as u32 {
        frames.push(trace.frame(place))?;
    }
    Ok(frames)
}

/// The number that the keys of a trace go into, and how many frames and rounds there are.
fn text_of(alloc: Global, trace: &Trace, count: u32) -> Result<String>
    requires { length trace.now.frames ≤ 2 ^ 24 }
{
    let frames = frames_of(alloc, trace)?;
    let number = rounds(count, &frames);
    let frames = frames.len();
    let mut text = String::new(alloc);
    writeln!(text, "{number:032x} frames={frames} rounds={count}")?;
    Ok(text)
}

/// The number that all keys go into, and how many frames and rounds there are.
pub fn answer(rt: &HostRuntime, words: &[String]) -> Result<String> {
    let [name, count] = words else {
        bail!("use: tool_layers keys FILE ROUNDS");
    };
    let count = number_of("rounds", count)?;
    let trace = read_capture(rt, name)?;
    let text = text_of(rt.alloc(), &trace, count);
    drop(trace);
    text
}
