//! Lists of actions of flows, as ovs-actions(7) writes them, both ways, and datapath actions, as dumps of flows print them.
//!
//! # What?
//!
//! The actions of a flow stand at the end of its line, as `set_field:1->reg0,output:2` or `drop`. `read_actions` makes
//! the list of `rule_tables` of what stands in a line from a place on, and `print_actions` writes a list in the one way
//! that dumps have it. A megaflow keeps the datapath actions that are done to each of its frames, and a dump shows them, as
//! `set(nw_ttl=0x3f/0x7f),push_vlan(vid=5,pcp=0),2`, or `drop` where there is none; `print_dp_actions` writes that text,
//! after ovs-dpctl(8). Datapath actions are never read from text.
//!
//! # What is promised
//!
//! `spec_flow_text` says which texts are lists of actions and what they say (`Actions`), and how a list is printed
//! (`Printed`), and this crate answers just that.
//!
//! - Where a list is read, it is the one that the text says. Where a fault is answered, it is the first fault of the
//!   text, with its column in the line. Memory that runs out is the one other answer.
//! - What is read is sound: tables, slices, values and masks are within their ranges, and only fields that can be written
//!   are written. It has at most 64 actions.
//! - What is printed of a sound list is its one text. Where there is no memory, the string has what it had, and perhaps a
//!   part of the text after it.
//! - So it is of datapath actions (`spec_flow_text`, `dp_text`), of which it is asked that their values and masks are within
//!   the fields that they are written to. Of keys within the widths of the fields each list that commit gives is so
//!   (`commit_is_within_fields`), and with it that of every translation, whatever the rules are
//!   (`translation_is_within_fields`): keys stay within the widths, but for the types of tags, which aren't written as
//!   fields, and of a field the bits that differ are written.
//!
//! # How
//!
//! The items of a list are cut off one after the other. An item ends at a separator outside of brackets; the brackets
//! that are open stand in a small stack, and an item without brackets takes no memory for it. Whether all of them close
//! comes from the same walk. An item is its place in the line and its bytes, so that every fault knows its column, and
//! nothing is copied but numbers. Each byte is looked at a few times.
//!
//! Each function reads what one definition says, and has its name.
//!
//! # What is left to others
//!
//! Names, values and words of a line (`field_text`), numbers (`text_numbers`), what named fields are (`named_fields`),
//! what stands before the list, what actions do, and which datapath actions there are and why (`dp_actions`).
#![tactic(auto)]

mod actions;
mod brackets;
mod dp_laws;
mod dp_printing;
mod fields;
mod items;
mod list;
mod ports;
mod printing;
mod resubmit;
mod slices;
mod words;
mod writes;

pub use actions::read_actions;
pub use dp_laws::{commit_is_within_fields, translation_is_within_fields};
pub use dp_printing::print_dp_actions;
pub use field_text::TextFault;
pub use printing::print_actions;
pub use rule_tables::Actions;
pub use spec_actions::{DpAction, OfAction};
