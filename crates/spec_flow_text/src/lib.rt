//! Flows as text, after ovs-ofctl(8), ovs-fields(7) and ovs-actions(7). A line is its bytes.
//!
//! - `Names`: the names of fields, shorthands, other items and actions, and those that are known and left out.
//! - `Values`: what a value states of a named field: its form, its range, its mask, and what it needs.
//! - `Items`: a line as words with separators between them; what the items of a match state, one after the other, and
//!   the first fault.
//! - `Matches`: which of the stated bits are kept, and the match that they make; what a line says before its actions.
//! - `Actions`: the actions of a list, one after the other, and the first fault.
//! - `Lines`: the edit of a line, whose word may stand in front.
//! - `Printed`: the one text of a match and of an action list.
//! - `Given`: what is said of a function that reads text, beside what is defined.
//!
//! # The parts
//!
//! Numbers and addresses as they are written stand in `numbers`, the text of megaflows and of datapath actions in `dp_text`.
#![tactic(auto)]

pub mod dp_text;
mod fault;
mod names;
pub mod numbers;
mod part;
mod shorthand;

pub use fault::TextFault;
pub use names::{ActionName, ItemName};
pub use part::{MatchPrerequisite, Part, TagPart, ValueForm};
pub use shorthand::Shorthand;
