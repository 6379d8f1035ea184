//! The law that a printed match reads back, above the grammar of `spec_flow_text`: the contract of functions that do
//! nothing, so that to call one is to have its facts.
//!
//! The grammar says twice what the text of a match is: which texts spell it, and which of them is printed. Not each pair
//! of a key and a mask has a text: no value states some bits of `dl_type`, or a port of TCP where the protocol isn't
//! stated; none states the type of a VLAN tag, or an inner tag.
//!
//! # What is promised
//!
//! - `SpelledMatches.IsSpellable` says which matches the text spells, field by field: the name under which a field is
//!   printed can state its bits (`can_state`), and what that name needs is stated by the match itself (`has_needed`).
//! - The print of each such match is read as that match, after any word of an edit, alone or before a list of actions
//!   (`printed_match_reads_back`). It states no table, no cookie and the default priority.
//! - With the print of a list of actions that can be spelled it is read as the flow of both (`printed_flow_reads_back`).
//!
//! # How
//!
//! Each field of the match prints as a block of items: none, one, or the two parts of a type of service; a shorthand
//! stands for the type, and for the protocol too where it says it. An item is read as its parts, since values read back
//! (`values`, `text_laws`) and no item has a separator in it. Blocks of different fields state no bit twice, so that
//! all of them are read (`Together`). What a block states is its field of the match, and its needs are met by the type and
//! the protocol that the blocks state. So all parts are kept, and the match that they make has the numbers of the printed
//! one, field by field.
//!
//! # What is left to others
//!
//! That each match that was read can be spelled is a law of `round_trips`. That programs read and print by the grammar
//! is the contract of `match_text` and `edit_script`.

mod flows_back;
mod matches_back;

pub use flows_back::printed_flow_reads_back;
pub use matches_back::printed_match_reads_back;
