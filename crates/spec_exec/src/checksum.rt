//! The checksum of the Internet protocols (RFC 1071), and how it is updated where a word changes (RFC 1624, equation 3).
//!
//! It is the ones' complement of the ones' complement sum of words of 16 bits. `Checksum` has both definitions; `net_bytes`
//! computes them, and has the law that an update is recomputing.
