//! The flows of a run, and their export by NetFlow version 5 (Cisco, "NetFlow Export Datagram Formats").
//!
//! - `Flows`: which frames are counted, by which numbers their packets belong together, and what is told of the flows
//!   that they make. Only IPv4 is told of: version 5 has no room for other addresses.
//! - `Datagrams`: the bytes of a flow, of a datagram and of a file, and how flows are read from bytes.
//!
//! Cisco's paper leaves open when a flow ends. Here it ends where its octets would no longer fit in 32 bits, and at the
//! end of the run. What was decided of the frames is handed in, so that nothing here is about boards or journals.
#![tactic(auto)]

mod export_time;
mod fault;
mod flow_record;

pub use export_time::ExportTime;
pub use fault::NetflowFault;
pub use flow_record::FlowRecord;
