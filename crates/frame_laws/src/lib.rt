//! The laws of frames: what every key and every layout of a frame has, whatever bytes stand in it.
//!
//! # What?
//!
//! `spec_frames` says header by header what a frame's key is and where its headers stand. Such definitions can be wrong
//! in ways that nobody sees. Here stand the facts by which a reader can believe them, each as the contract of a function
//! that does nothing: to call one is to have its facts. They hold of any list of numbers as a frame, unless bytes are
//! asked for.
//!
//! # What is promised
//!
//! - Bytes after the end of the packet change neither key nor layout (`bytes_after_the_packet_do_not_count`): a frame
//!   that was padded to the least size of Ethernet is the same packet as before.
//! - Headers follow each other and lie in the frame (`headers_follow_each_other`). This is what code that rewrites a
//!   frame relies on, at the offsets of its layout.
//! - A transport header is named exactly where the packet has one (`transport_is_named_where_it_stands`), and then
//!   `tp_src` and `tp_dst` are its numbers (`ports_are_those_of_the_header`), unless the packet is a fragment
//!   (`fragments_have_no_ports`).
//!
//! # How
//!
//! The forms of keys and layouts are those of `keys`, which has the two laws of keys that readers of frames need. What an IPv6 packet
//! carries is reached by a chain of extension headers, of at most 8, and what is said of it is proved by induction on how
//! many may still follow. Each of them is known to have 8 bytes before the packet's end before its size is read, so that
//! nothing after that end is.
//!
//! # What is left to others
//!
//! That a program finds the key and the layout defined is the contract of the crates that read frames. Sums over the
//! bytes of a packet, as checksums, are no matter of these laws.
#![tactic(auto)]

pub mod keys;
mod padding;
mod places;
mod ports;

pub use padding::bytes_after_the_packet_do_not_count;
pub use places::{headers_follow_each_other, transport_is_named_where_it_stands};
pub use ports::{fragments_have_no_ports, ports_are_those_of_the_header};
