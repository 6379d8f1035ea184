//! Laws of flows as text, which stand above the grammar of `spec_flow_text`. Each is the contract of a function that does
//! nothing, so that to call it is to have its facts.
//!
//! The grammar says what a line is, byte by byte. A reader of it has to believe it rule by rule; these laws are to be
//! believed at a glance, and a mistake in a rule would show in one of them.
//!
//! # What is promised
//!
//! - A comment changes nothing of what is read of a line (`comments_change_nothing`).
//! - Nor do separators at its end (`separators_at_the_end_change_nothing`), in front of a match or of a list of actions
//!   (`separators_in_front_change_nothing`), or doubled (`words_have_separators_between_them`).
//! - What is printed of a list of actions or of a match is part of one line, and begins no comment
//!   (`printed_actions_are_one_line`, `printed_match_is_one_line`).
//! - A printed action reads back as that action (`printed_action_reads_back`), and a printed list as that list
//!   (`printed_actions_read_back`), where the flow text can spell it (`Spelled.are_spellable`): sound actions of at most
//!   64, nothing behind a `goto_table`, ports that a switch can have, and writes with a mask that can be named and no
//!   bits outside it.
//!
//! # How
//!
//! All that is read of a line is read of its bytes before a number sign. A list of actions that was read has closed all
//! its brackets at its end, so that a separator there stands outside of them. Values are printed in digits, letters,
//! colons and dots by the laws of `values`, and the rest of what is printed is written out in the definitions. So the
//! reader finds each bracket, arrow, slash and comma of what is printed, and each value between them reads back.
//!
//! # What is left to others
//!
//! That a printed match reads back is a law of `matches`; that what was read can be spelled, and so reads back
//! from its print, are laws of `round_trips`. That programs read and print by the grammar is the contract of
//! `match_text`, `action_text` and `edit_script`. These laws stand apart, so that a new one proves no reader again.
//!
//! # The parts
//!
//! Laws of printed values stand in `values`, of matches in `matches`, of whole flows in `round_trips`, and of items in another order in `item_order`.
#![tactic(auto)]

mod comments;
pub mod item_order;
pub mod matches;
mod printed;
mod read_back;
pub mod round_trips;
mod separators;
pub mod values;

pub use comments::comments_change_nothing;
pub use printed::{printed_actions_are_one_line, printed_match_is_one_line};
pub use read_back::{printed_action_reads_back, printed_actions_read_back};
pub use separators::{
    separators_at_the_end_change_nothing, separators_in_front_change_nothing,
    words_have_separators_between_them,
};
