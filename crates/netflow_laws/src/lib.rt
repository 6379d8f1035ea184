//! What follows from the definitions of flows alone (`spec_netflow`).
//!
//! `every_packet_is_counted_once` is the law that makes an export an account: what flows tell is what came in, neither
//! more nor less, of all packets together and of each class. A flow may be full and be followed by another of its class;
//! the sums are those of both.
//!
//! `flows_are_read_back` is the law that makes it a record: reading the datagrams of records gives exactly these records,
//! in their order, and finds no fault. It asks that each number fits into its field, since what a field has no room for
//! isn't written, and that there are at most 2^32 records: the sequence number of a datagram has 32 bits. The flows of a
//! run meet both, where its frames are made of bytes, the ports where they came in and their first outputs have 16 bits,
//! and there are fewer than 2^32 frames. So what is read from the export of such a run is its flows. What was decided of
//! the frames is not looked into: that its outputs are ports of 16 bits is for others to show.
//!
//! How: a packet is added to one flow or is one itself, so that any sum that joining adds up is that of the packets. It
//! is proved once for all such sums. Datagrams are read from the front: each ends where the next begins, and all are full
//! but the last. A flow has no more packets than there are frames, and a full one is not joined, so that its octets fit.
//! Control bits are joined bit by bit. All else is that of a packet: as wide as the header that it is read from, or cut
//! to 32 bits, as times are.
//!
//! That the program makes the flows of the definition, and their datagrams, and reads as the definition does, are
//! contracts of `netflow_v5`.
#![tactic(auto)]

mod reading;
mod sums;

pub use reading::flows_are_read_back;
pub use sums::every_packet_is_counted_once;
