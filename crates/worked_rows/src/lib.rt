//! Worked examples of what the switch does, each a lemma that the definitions compute to the answer.
//!
//! A definition is believed once it gives the answers that one knows beforehand. Here stand such answers: small tables
//! of rules, a packet, and what comes of it, worked out by hand from the manuals and from this project's rules. Each
//! lemma is named by what it shows and holds by computing both sides, so that a change of a definition that changes an
//! answer is refused here.
//!
//! - `Lookups`: which rule wins, and which bits that consults.
//! - `Writes`: actions that change a packet, and the datapath actions that commit them.
//! - `Tables`: packets that pass through several tables.
//! - `Journals`: what the caches of a port do, step by step.
//!
//! Nothing is built on this crate. The few rows that tell a wrong definition from a right one at once stand with the
//! definitions themselves, in the `proofs` folders of the specification crates, beside edits that they refuse.
//!
//! Frames with the keys that Wireshark's `tshark` finds in them stand in `frames`.
#![tactic(auto)]

pub mod frames;
