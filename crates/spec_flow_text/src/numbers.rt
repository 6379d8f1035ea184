//! Numbers and addresses as texts, both ways, and the characters that part texts. A text is its bytes.
//!
//! - `Characters`: characters by name, and those of printed values.
//! - `Numbers`: parts of a text; numbers in decimal and hexadecimal; Ethernet addresses, after ovs-ofctl(8).
//! - `Addresses`: addresses of IPv4 and IPv6 and masks of them, after ovs-ofctl(8), RFC 3986 and RFC 4291.
//! - `Printed`: the one form in which each value is printed. `text_laws::values` says that it reads back.
