//! Numbers in the bytes of a frame, and checksums.
//!
//! # What?
//!
//! A header is a row of numbers of 2, 4, 6 or 16 bytes, the most significant byte first: the byte order of the network
//! (RFC 1700, "Data Notations"). `be16` and its like read the number at an offset, and `put16` and its like write one.
//! `le16` and `le32` read numbers of the other order, as capture files have them.
//!
//! `checksum_of` gives the Internet checksum of words (RFC 1071). Where a word of a header changes, `checksum_update`
//! gives the new checksum from the old one (RFC 1624).
//!
//! # What is promised
//!
//! - A number that is read is exactly the one of `spec_base` at the offset. `be48` says too that it has 48 bits.
//! - A write puts the number's bytes at the offset. The bytes before and after stay, and so does the length.
//! - The checksum of words is the one of `spec_exec::checksum`.
//! - The updated checksum is the one of equation 3 of RFC 1624, as `spec_exec::checksum` states it.
//! - Updating is recomputing (`update_is_recomputing`): for all words the updated checksum is the one of the words as
//!   they are now. Only where these are all 0 do the two differ: the update gives 0, and recomputing gives 65,535. No
//!   header of IPv4 is all 0, since its first four bits are not.
//! - No call takes memory, and none can fail. That the bytes are there is for the caller to know.
//!
//! # How
//!
//! The crate `byteorder` reads and writes numbers at the front of a slice, and here the slice begins at the offset.
//!
//! A sum in ones' complement is one modulo 65,535, in which 0 comes only of zeros. That makes the law hold, and it is
//! how it is proved.
//!
//! # What is left to others
//!
//! Where the fields of a header stand, and which words a checksum covers. A UDP checksum of 0 says that there is none
//! (RFC 768), so whoever updates one has to ask for 0 before and write 65,535 in place of it after.
#![tactic(auto)]

mod checksum;
mod reading;
mod writing;

pub use checksum::{checksum_of, checksum_update, update_is_recomputing};
pub use reading::{be16, be32, be48, be128, le16, le32};
pub use writing::{put16, put32, put48, put128};
