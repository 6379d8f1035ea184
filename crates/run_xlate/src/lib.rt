//! A translation of a run, under its name.
//!
//! # What?
//!
//! A packet that no cache knows is translated through the flow tables of one version, and what comes of it is kept as a
//! megaflow. Whoever translates and whoever keeps megaflows meet here: an `Xlated<C>` is what the tables of a version of
//! the run `C.run` make of a packet of a key, and the bits of the key that decide it.
//!
//! # What is promised
//!
//! - The translation is the one that `spec_board` calls `translated`, and the mask is its `mask_for`, exactly. So key and
//!   version settle all else, and they are all that contracts see of an `Xlated` (`specs/Views`).
//! - Where the packet's own key is clean, every clean key that agrees with it on the mask is translated alike by that
//!   version, and has the same mask (`IsWildcardSound` of `pipe_model`). That is what lets a megaflow stand for other packets than
//!   its own. A key is clean where metadata and registers are 0, as they are in the key of each frame.
//! - No call takes memory, and none can fail.
//!
//! # How
//!
//! The type keeps that translation and mask are those of its key and version, so a value can be handed on from a thread
//! to another, or stored, and nothing has to be proved of it again. The laws are those of `table_laws`.
//!
//! # What is left to others
//!
//! How a packet is translated: whoever makes a value owes that it is right. Which version serves which frame, and what
//! becomes of the megaflow. That rules and ports are those of the files.
#![tactic(auto)]

mod threads;
mod xlated;

pub use xlated::Xlated;
