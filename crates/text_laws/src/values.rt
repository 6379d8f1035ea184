//! The laws of values as texts: a printed value reads back. Each is the contract of a function that does nothing, so that
//! to call it is to have its facts.
//!
//! `spec_flow_text::numbers` says twice what a value is as a text: which texts spell it, and which of them is printed. Here stand the
//! facts that tie the two together.
//!
//! # What is promised
//!
//! - What is printed of a number reads back as that number, in decimal, in hexadecimal digits, and with four of them
//!   (`decimal_reads_back`, `hexadecimal_reads_back`, `hexadecimal4_reads_back`).
//! - So does what is printed of an address (`mac_reads_back`, `ipv4_reads_back`, `ipv6_reads_back`) and of a mask of one,
//!   whether it is a prefix or not (`ipv4_mask_reads_back`, `ipv6_mask_reads_back`).
//! - All that is printed has digits, letters, colons and dots alone (`numbers_have_value_characters`,
//!   `addresses_have_value_characters`, `masks_have_value_characters`). So a reader of flows finds where a value ends.
//! - All that is read is within its range (`numbers_are_within`, `addresses_are_within`, `masks_are_within`).
//!
//! What is printed reads back for all numbers within the width of what is printed: 128 bits for plain numbers, which is
//! the widest that a field has.
//!
//! # How
//!
//! A reader cuts a text at the first colon or dot, and digits have neither. So each part of an address reads back by
//! itself, and the parts make up the number. A mask that is printed as a length is by definition the mask of that length,
//! and one that is printed as an address isn't digits alone, so that it isn't taken for a length.
//!
//! # What is left to others
//!
//! That programs read and print by these definitions is the contract of `text_numbers`. These laws stand apart, so that a
//! new one proves no reader again.

mod addresses;
mod characters;
mod numbers;
mod ranges;

pub use addresses::{
    ipv4_mask_reads_back, ipv4_reads_back, ipv6_mask_reads_back, ipv6_reads_back, mac_reads_back,
};
pub use characters::{
    addresses_have_value_characters, masks_have_value_characters, numbers_have_value_characters,
};
pub use numbers::{decimal_reads_back, hexadecimal_reads_back, hexadecimal4_reads_back};
pub use ranges::{addresses_are_within, masks_are_within, numbers_are_within};
