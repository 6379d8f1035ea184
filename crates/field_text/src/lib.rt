//! Fields of flows as texts: their names, their values, and what an item states of them.
//!
//! # What?
//!
//! `nw_dst=10.0.0.0/8` names a field and gives it bits. This crate knows the names of the flow text, of fields, of other
//! items and of actions (ovs-fields(7), ovs-ofctl(8), ovs-actions(7)), and the form in which each field has its values.
//! Readers of matches and of actions stand on it, and so does what prints them.
//!
//! # What is promised
//!
//! - A name means what the tables of `spec_flow_text` say, one that is known and left out is told from one that is
//!   unknown, and `name_of` is the name that is printed. `own_name` is the one that a field of the key has by itself. The
//!   type of a VLAN tag and an inner tag have names that are printed alone: `field_named` never answers their fields.
//! - `read_value` reads a value and its mask exactly where the definition has one. Both are within the bits of the name.
//! - `field_stated` and `vlan_stated` are the bits of a field of the key that an item of a match states, with what they
//!   need of the flow. They are within the field, and the value within its mask.
//! - `print_value` adds the text of a value that the definition gives, and `print_list` the texts of items with commas
//!   between them, or `drop`. Where memory runs out the text begins with what it was. `within_mask` is what is written of
//!   bits: those outside the mask are 0.
//! - `next_word` is the first word of a stretch of a line, and what stands behind it, whichever bytes stand between words.
//! - A `Word` knows that its columns are numbers of 32 bits, and `text_from` gives the text of a line without its comment,
//!   or the column of its first byte that isn't ASCII.
//! - No reader takes memory.
//!
//! # How
//!
//! Each table of the definitions is one in code, and a name is compared with each row in turn. A comparison begins with
//! the lengths, so a look-up costs little more than a walk over them. Fields are many, and each item of a flow is looked up
//! among them: a name in lower case is compared with the names of those fields alone that have one with its first letter.
//!
//! # What is left to others
//!
//! Numbers and addresses (`text_numbers`), where names stand in the packet (`named_fields`), and all that goes over more
//! than one item.
#![tactic(auto)]

mod action_names;
mod fields;
mod items;
mod line;
mod lines;
mod listing;
mod next_words;
mod own_names;
mod parts;
mod printing;
mod protocols;
mod values;
mod words;

pub use action_names::{
    action_named, begins_with_digit, is_left_out_as_field, reserved_port_named,
};
pub use fields::{field_named, name_of};
pub use items::{item_named, word_of};
pub use line::Word;
pub use lines::{is_separator, is_white, text_from, uncommented};
pub use listing::{ItemPrinter, print_list};
pub use next_words::{Gap, Separators, WhiteSpace, first_word, next_word};
pub use own_names::own_name;
pub use parts::{field_stated, protocol_part, type_part, vlan_stated};
pub use printing::print_value;
pub use protocols::{
    ARP_TYPE, ICMP_PROTOCOL, ICMP6_PROTOCOL, IPV4_TYPE, IPV6_TYPE, TCP_PROTOCOL, UDP_PROTOCOL,
};
pub use spec_flow_text::{
    ActionName, ItemName, MatchPrerequisite, Part, Shorthand, TagPart, TextFault, ValueForm,
};
pub use values::{Bits, read_value, read_whole_value, within_mask};
pub use words::meaning_of;
