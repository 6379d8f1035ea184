//! The laws of checksums: one that was right stays right, whatever datapath actions make of the frame.
//!
//! # What?
//!
//! `spec_exec` updates a checksum word by word where an action changes what it covers (RFC 1624, equation 3). Nothing of
//! that says that the frame that is sent has the checksum that its receiver computes. Here stand the facts that do, each as
//! the contract of a function that does nothing: to call one is to have its facts. They speak of the words of the RFCs
//! alone: a checksum is right if the words that it covers, itself among them, add up to all ones (RFC 1071). For an IPv4
//! header these are its own words, and for a transport header those of the pseudo header and of all that follows
//! (`Right`). Neither places nor updates are part of the statements.
//!
//! # What is promised
//!
//! - After a write to any field, with any value and mask, the checksum of an IPv4 header is right if it was
//!   (`ipv4_header_checksums_stay_right`), and so is that of TCP, UDP and ICMPv6 over either IP, and of ICMP over IPv4
//!   (`transport_checksums_stay_right`).
//! - So is one of IPv6 that covers the final destination of a routing header in place of the address in the IPv6 header
//!   (`checksums_over_a_final_destination_stay_right`).
//! - UDP over IPv4 without a checksum, which is a checksum of 0 (RFC 768), stays without one, and UDP with a checksum
//!   keeps one (`udp_stays_with_or_without_a_checksum`).
//! - A tag that is pushed or popped moves the words that are covered, and changes none
//!   (`tags_change_nothing_that_is_covered`).
//! - So each piece that a list of actions sends has right checksums, if the frame had (`what_is_sent_has_right_checksums`).
//!
//! # The exceptions
//!
//! - After any routing header the checksum doesn't follow a write to `ipv6_dst`. Without segments left it covers that
//!   address (RFC 8200, 8.1), and is wrong then.
//! - A checksum of 0 in UDP over IPv6, which RFC 6935 allows for tunnels, says nothing special: where it follows, it
//!   becomes a number, though there was none.
//! - A fragment has the checksum of its whole datagram, of which these laws don't speak: what they say of a first fragment
//!   holds of its own words alone. An address that is written in one with fewer than 20 bytes of TCP leaves the datagram's
//!   checksum as it was.
//! - Of a frame that was cut off, the bytes that are missing count as 0.
//! - After a third tag the headers of a packet are not read, and no checksum is followed. Nor is one after a push of a
//!   type that no tag has.
//!
//! # How
//!
//! What is covered is the words of the IP header that count, words that are given by its other fields, and the bytes of the
//! packet (`Cover`). A write is one of three things to a checksum: it changes nothing, nothing that is covered, or whole
//! words that are covered, and then the checksum among them follows (`Writes`). Which one is a table by the field
//! (`Transport`, `Ipv4Sum`). In the third case the numbers of words that changed and of the checksum are congruent modulo
//! 65535 to those before (`Sums`), and 0 and 65535 are told apart since no such sum of words is 0: the protocol, or the
//! version, is among them.
//!
//! # What is left to others
//!
//! That fields read back, that other bytes stay and that headers stay where they stand are the laws of `exec_laws`. That a
//! program sends what `spec_exec` says is the contract of the crate that rewrites frames.

mod headers;
mod sends;
mod tags;
mod transports;

pub use headers::ipv4_header_checksums_stay_right;
pub use sends::what_is_sent_has_right_checksums;
pub use tags::tags_change_nothing_that_is_covered;
pub use transports::{
    checksums_over_a_final_destination_stay_right, transport_checksums_stay_right,
    udp_stays_with_or_without_a_checksum,
};
