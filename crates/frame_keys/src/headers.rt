//! The headers of a frame: which there are, and what they say of the packet.
//!
//! # What?
//!
//! A frame has an Ethernet header, perhaps with one or two tags, then a network header of ARP, IPv4 or IPv6, and after one of IP
//! a transport header. `network_at` reads the network header and `transport` finds the one after it: what the key of
//! the frame and its layout are made of.
//!
//! # What is promised
//!
//! `spec_frames` says which headers a frame has. Each answer is exactly the one that it defines, for every frame,
//! however short or broken.
//!
//! - A malformed network header is none, and no header stands after it.
//! - A frame that was cut by its capture is read as it is: a packet ends where its header says, or with the frame. A
//!   header that isn't whole is malformed. Headers that are found stand within the frame.
//! - A later fragment has no transport header, and a first one has.
//! - No call takes memory, and none can fail.
//!
//! # How
//!
//! Each header has a module, which tests at an offset whether the header is well formed and reads what it says. The
//! network header is read once, and all else is made of what is kept of it (`spec_frames::Network`). Nothing is copied,
//! and each number is read where it stands.
//!
//! The extension headers of IPv6 are passed in a loop of at most eight turns. It keeps an `UpperLayer`: what the packet
//! would carry if no extension header followed.
//!
//! # What is left to others
//!
//! The key (`frame_keys`) and the layout (`layout`), which frame is asked about, and changes to a frame. No
//! checksum is tested: a frame with a wrong one has headers as any other. A third tag, MPLS and tunnels aren't read.

mod arp;
mod ethernet;
mod ipv4;
mod ipv6;
mod network;
mod transport_header;

pub use ethernet::{HEADER_SIZE, INNER_TAG_AT, OUTER_TAG_AT, carried, tag_count, tci_at, tpid_at};
pub use network::network_at;
pub use transport_header::transport;
