//! The two laws of keys that code which reads frames relies on: each the contract of a function that does nothing, so that
//! to call it is to have its facts.
//!
//! - A frame of fewer than 14 bytes has a key of its port alone and no headers (`short_frame_has_its_port_alone`).
//! - Every key is clean, and within the widths of its fields (`keys_are_clean`): what the laws of translation ask for.
//!
//! They hold of any list of numbers as a frame, unless bytes are asked for. A key is written field by field on one of
//! four forms, by the network header; so what holds of each form holds of every key (`proofs/Forms`).

mod keys;

pub use keys::{keys_are_clean, short_frame_has_its_port_alone};
