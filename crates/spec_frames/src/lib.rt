//! What a frame says: the headers in its bytes, the key that they give, and where they stand.
//!
//! A frame is described as headers that follow each other. Each header stands at an offset, says what follows it, and
//! thereby where that begins; positions within a header are those of the figures in the standards. The modules go from
//! the outside to the inside:
//!
//! - `Ethernet`: the addresses, a tag, and the type of what the frame carries (IEEE 802.3, 802.1Q and 802).
//! - `Arp`, `Ipv4`, `Ipv6`: where such a header is well formed, and what it says (RFC 826, 791 and 8200).
//! - `Network`: which of these a frame has.
//! - `Transport`: the headers of TCP, UDP, ICMP and ICMPv6 (RFC 9293, 768, 792 and 4443).
//! - `Layout`: where the headers of a frame stand.
//! - `Key`: the key of a frame that came in at a port, by the fields of ovs-fields(7).
//!
//! This profile chooses, where the standards leave it open, how long a header must be to be read, what a malformed one
//! leaves, and when a SNAP header is one: a malformed network header leaves all network and transport fields 0.
#![tactic(auto)]

mod headers;
mod layout;

pub use headers::{Carried, Datagram, Fragment, Network, UpperLayer};
pub use layout::{L3, L4, Layout};
