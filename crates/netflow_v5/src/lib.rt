//! The flows of a run, and their export as datagrams of NetFlow version 5 (Cisco, "NetFlow Export Datagram Formats").
//!
//! # What?
//!
//! A *flow* is the IPv4 packets of one class: they came in at one port, and have the same addresses, protocol, type of
//! service and ports. An export tells of each flow how many packets and octets it has, when the first and the last came
//! in, and where the first was sent. `flows` makes the flows of a finished run, `write_netflow` writes their datagrams
//! to a file, and `read_netflow` reads flows from the bytes of datagrams.
//!
//! # What is promised
//!
//! `spec_netflow` says which flows a run has, which bytes their datagrams are, and what is read from bytes.
//!
//! - The flows are exactly those of the definition: each packet is counted once, in the newest flow of its class.
//! - The file that is written has exactly the bytes of the definition. After a refusal it has a prefix of them, or was
//!   not created.
//! - Flows are read exactly where the definition finds no fault, and then they are those of the definition. Else its
//!   fault is answered, if there was memory for the flows before it.
//!
//! That the sums of flows are those of packets is a law (`netflow_laws`).
//!
//! # How
//!
//! Frames are taken in the order of their arrivals, which the finished boards lend with their actions. A hash map has
//! the index of the newest flow of each class, so that a frame costs a look-up, however many flows there are. The numbers of
//! a class are read from the headers of the frame, and its key isn't made again. Times are counted from the first frame in
//! that order. No rule is looked at: what rules count says nothing of ports.
//!
//! A datagram is made in a buffer that is used again for the next, and written in one call. Reading takes one record
//! after the other from where it stands.
//!
//! # What is left to others
//!
//! The name of the file, and whether it is written. Datagrams aren't sent: whoever wants that sends the file's parts,
//! each as long as its header says.
#![tactic(auto)]

mod class;
mod datagram;
mod export;
mod flow;
mod flow_table;
mod reading;
mod run_flows;

pub use export::write_netflow;
pub use reading::read_netflow;
pub use run_flows::flows;
pub use spec_netflow::{FlowRecord, NetflowFault};
