//! The words of the command line.
use crate::numbers::split_rounds;
use anyhow::{Result, anyhow, bail};
use std::alloc::Global;

const USE: &str = "use: tool_layers translations EDITS TRACE PORT PORTS.. [--rounds=N]";

/// What the words of the command line say.
#[derive(Drop)]
pub struct Command<'a> {
    /// The name of the file of edits.
    pub edits: &'a str,
    /// The name of the capture file.
    pub trace: &'a str,
    /// The port at which all frames come in.
    pub port: u16,
    /// The ports of the switch.
    pub ports: Vec<u16>,
    /// How many times every frame is translated, where only the visits are counted.
    pub rounds: Option<u32>,
}

fn port_of(word: &str) -> Result<u16> {
    word.parse::<u16>()
        .map_err(|_| anyhow!("{word:?}: no number of a port"))
}

fn ports_of(alloc: Global, words: &[String]) -> Result<Vec<u16>> {
    let mut ports = Vec::with_capacity(alloc, words.len())?;
    for word in words {
        ports.push(port_of(word.as_str())?)?;
    }
    Ok(ports)
}

/// Reads the words of the command line.
pub fn read_command(alloc: Global, words: &[String]) -> Result<Command<'_>> {
    let (words, rounds) = split_rounds(words)?;
    let [edits, trace, port, ports @ ..] = words else {
        bail!("{USE}");
    };
    Ok(Command {
        edits: edits.as_str(),
        trace: trace.as_str(),
        port: port_of(port.as_str())?,
        ports: ports_of(alloc, ports)?,
        rounds,
    })
}
