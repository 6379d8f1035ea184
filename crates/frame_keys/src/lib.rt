//! The key of a frame, by which the tables and the caches are asked.
//!
//! # What?
//!
//! A frame that comes in at a port has a *key*: the port, and the fields that its headers give. `key_of` reads it.
//!
//! # What is promised
//!
//! `spec_frames` says which key a frame has, as a list of numbers. The key that is read has exactly these numbers.
//!
//! - Every frame has a key, however short or broken. Of one without a whole Ethernet header the key is the port alone.
//! - A malformed network header leaves all network and transport fields 0.
//! - A key has the ports of no fragment.
//! - The call takes no memory, and can't fail.
//!
//! # How
//!
//! `headers` finds the headers, and reads the network header once. Each header has a module here, which gives a
//! key its fields. Nothing is copied, and each number is read where it stands.
//!
//! # What is left to others
//!
//! Which frame is asked about, and all that a key is compared with.
//!
//! # The parts
//!
//! The headers of a frame stand in `headers`, where they begin in `layout`.
#![tactic(auto)]

mod arp;
mod ethernet;
mod field;
pub mod headers;
mod ipv4;
mod ipv6;
mod key;
pub mod layout;

pub use key::key_of;
