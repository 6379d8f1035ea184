//! What a port sends, in the order in which it stands in the port's output file.
//!
//! # What?
//!
//! Frames come in at all ports of a switch, and the frames that leave by one port stand in one file. They stand there
//! in the order of their arrivals (`run_boards::arrivals`).
//!
//! # What is promised
//!
//! `write_port` writes exactly the file that `spec_run` defines for the port, out of the journals of finished boards:
//! each frame once for each output to the port in the actions that its board decided, with the time at which it came
//! in. On a shelf that tells its bytes, a refused call leaves a prefix of that file after the files that were there
//! before, or nothing of it.
//!
//! `send_first` writes a frame once, as it first goes out at one of some ports, or nothing: what else is written of frames,
//! as the copies of mirrors, is made of it.
//!
//! # How
//!
//! The arrivals are there once for all ports, and so are their *filters*: a number for each, with a bit for each port
//! that its actions send to (`filters_of`). Each port's file is one walk along the filters, eight at once, so that a frame
//! costs a port that doesn't get it a part of the test of a bit. Where the port's bit is there, the finished boards lend
//! the frame with its actions, and its bytes go from its trace to the shelf. Ports whose numbers leave the same remainder
//! by 32 share a bit, and then the actions tell.
//!
//! A filter also tells whether one output is all that the actions are. Frames that came in one after the other at a port,
//! and of which this is all that is done, are a *batch* of up to 256, also where frames came in between that the port doesn't
//! get. They are written as their records stand in the trace, in one piece where they stand there as they are written; no
//! board is asked for them. However a batch is cut, each record is looked at once, and each arrival too, but for the one
//! that ends a batch, which is looked at again as the next one begins.
//!
//! What only sends is written from the trace. A frame that is rewritten on the way is copied into a buffer first
//! (`action_exec`), one for each file, and only where it goes out at the port after it was rewritten.
//!
//! # What is left to others
//!
//! That every frame is decided (`run_boards`, whose `Finished` has it as its type), the name of the file, and that
//! files are written for all ports.
//!
//! The files of mirrors stand in `mirror`.
#![tactic(auto)]

mod batch;
mod first_sent;
pub mod mirror;
mod port_file;
mod port_filter;
mod sending;

pub use first_sent::send_first;
pub use port_file::write_port;
pub use port_filter::{PortFilter, filters_of};
