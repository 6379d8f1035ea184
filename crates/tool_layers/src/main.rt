//! The command `tool_layers`, by which checks and measurements ask a part of the switch for what it makes of its input.
//!
//! # What?
//!
//!     tool_layers flows FILE
//!     tool_layers keys FILE ROUNDS
//!     tool_layers translations EDITS TRACE PORT PORTS.. [--rounds=N]
//!     tool_layers runs EDITS LIMIT PORT=FILE PORT=.. [--rounds=N]
//!
//! `flows` prints the flows of a file of edits, `keys` makes the keys of frames, `translations` has the tables translate
//! them, and `runs` carries a whole run out; each module says how.
//!
//! # What is promised
//!
//! A word or a file that has a fault is refused as a whole, with its first one. None looks at a clock: two commands with
//! different numbers of rounds differ only in rounds, and whoever runs them takes the time of both. Nothing is promised of
//! the numbers that are printed, into which everything goes that was made, so that nothing is left out.
//!
//! # How
//!
//! Files are read whole by the readers of the switch (`edit_script`, `pcap_files::reader`, `switch_input`), and what is to
//! be printed is one text.
//!
//! # What is left to others
//!
//! What is printed is held against a simulation, Open vSwitch and a program in C by `checks/parse_flows.py`,
//! `checks/masks.py` and the benchmarks.
#![tactic(auto)]

mod files;
mod flows;
mod keys;
mod numbers;
mod runs;
mod translations;

use anyhow::{Result, bail};
use std::env;

const USE: &str = "use: tool_layers flows|keys|translations|runs WORDS..";

/// What a layer makes of the files that the words name.
fn answer_of(rt: &HostRuntime, layer: &str, words: &[String]) -> Result<String> {
    match layer {
        "flows" => flows::answer(rt, words),
        "keys" => keys::answer(rt, words),
        "translations" => translations::answer(rt, words),
        "runs" => runs::answer(rt, words),
        _ => bail!("{USE}"),
    }
}

fn main(rt: HostRuntime) -> Result<()> {
    let words: Vec<String> = env::args(&rt)?.skip(1).collect(rt.alloc())?;
    let [layer, words @ ..] = words.as_slice() else {
        bail!("{USE}");
    };
    let text = answer_of(&rt, layer.as_str(), words)?;
    print!(rt; "{text}")?;
    Ok(())
}
