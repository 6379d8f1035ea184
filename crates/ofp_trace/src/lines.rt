//! Traces as text, after ovs-appctl(8) `ofproto/trace`, in this profile's forms.
//!
//! # What?
//!
//! A trace is printed as lines: the packet's key, each lookup with the rule that won or that none did, the key at the end,
//! the match of the megaflow that comes of it, and the datapath actions. `print_trace` adds these lines to a string.
//!
//! # What is promised
//!
//! - The text is the one that `spec_tools` gives what was traced (`told_text`): a rule's match and actions as in the dump of
//!   rules, the last two lines as in the dump of megaflows.
//! - It is asked that some edits of sound actions made the rules, that each rule which won is live in their last version, and
//!   that the values and masks of the datapath actions are within their fields. So it is with every trace over these rules
//!   (`ofp_trace`, `action_text`).
//! - Out of memory is the only error, and then the string has what it had, and perhaps a part of the text after it.
//!
//! # How
//!
//! All is written straight to the end of the string. A key is printed as the match of a megaflow that states all bits of
//! each field that isn't 0. A rule has its match as its edit added it, and its actions as they are in the last version.
//!
//! # What is left to others
//!
//! Numbers (`text_numbers`), matches (`match_text`, `dump_lines::megaflows`), actions (`action_text`), the rules
//! (`rule_tables`), and what is traced (`ofp_trace`).

mod keys;
mod lookups;
mod text;

pub use text::print_trace;
