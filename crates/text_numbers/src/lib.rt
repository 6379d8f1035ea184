//! Numbers and addresses of the flow text, as ovs-ofctl(8) writes them, both ways.
//!
//! # What is promised
//!
//! Each reader takes a text, its bytes, and answers the number that it spells or none: exactly where `spec_flow_text::numbers` says
//! that it spells one. No reader takes memory, and none guesses: a sign, white space, a further byte or a number that
//! is too great is no number. A decimal number has no leading zeros, since some tools read those as octal.
//!
//! Each printer adds the text that `spec_flow_text::numbers` gives for the number to the end of a `String`. Where there is no
//! memory it answers `AllocError`, and the string has then what it had, and perhaps a part of the text after it.
//!
//! # How
//!
//! The readers look at each byte a few times at most. Digits are turned into numbers by std's `from_str_radix`, at 128
//! bits, which is as wide as the widest field; what doesn't fit there passes every limit. An IPv6 address is tried as
//! eight groups, and then as groups round `::`; groups are counted as they are read, so no list of them is kept.
//!
//! Decimal digits come from `itoa`. `write!` isn't used, since it doesn't say what a string has after a refusal.
//!
//! # What is left to others
//!
//! What stands around a number, as the name of its field or the slash before a mask, is left to the readers and printers
//! of flows and words above. That a printed number reads back is a law of `text_laws::values`.
#![tactic(auto)]

mod addresses;
mod numbers;
mod printing;

pub use addresses::{read_ipv4, read_ipv4_mask, read_ipv6, read_ipv6_mask};
pub use numbers::{
    LAST_PORT, after_start, as_port, cut_at, read_decimal, read_digits, read_mac, read_number,
};
pub use printing::{
    print_decimal, print_hexadecimal, print_hexadecimal4, print_ipv4, print_ipv4_mask, print_ipv6,
    print_ipv6_mask, print_mac, print_word,
};
