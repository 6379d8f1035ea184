//! `runs EDITS LIMIT PORT=FILE PORT=.. [--rounds=N]`, by which `bench/caches` measures what caches save.
//!
//! The words are those of the switch, with a flow limit in the place of the name of what is written. It reads the files as
//! the switch does, and makes one run of them. Then it carries the run out N times (once where no number is given), with at
//! most LIMIT megaflows at each port, and prints how many frames were hits of either cache, how many were misses, and how
//! many frames were sent, in all rounds together. Nothing is written.
//!
//! Words or files that the switch refuses are refused; `megaswitch` tells why.
mod counts;
mod rounds;
mod words;

use crate::runs::rounds::counts_of;
use crate::runs::words::read_command;
use anyhow::Result;
use std::fmt::Write;

/// What became of all frames.
pub fn answer(rt: &HostRuntime, words: &[String]) -> Result<String> {
    let command = read_command(rt, words)?;
    let counts = counts_of(rt.alloc(), command)?;
    let mut text = String::new(rt.alloc());
    writeln!(
        text,
        "exact={} mega={} missed={} sent={}",
        counts.exact, counts.mega, counts.missed, counts.sent
    )?;
    Ok(text)
}
