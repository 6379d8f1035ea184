//! One run of the switch: its ports, the edits of its tables, the traces that come in, and how time joins them.
//!
//! - `Run`: what the words and the files of a run give, and the frame of a place of a port. Ports stand in the order
//!   of the words, places of a trace are counted from 1, and a frame's time is in nanoseconds.
//! - `Blocks`: the sync points cut the edits and the frames of each port into blocks, counted from 0. A frame is decided
//!   under a version that was made within its block.
//! - `Arrivals`: the frames of all ports, in the order of time, ingress port and place.
#![tactic(auto)]

mod arrival;
mod run_step;

pub use arrival::Arrival;
pub use run_step::RunStep;
