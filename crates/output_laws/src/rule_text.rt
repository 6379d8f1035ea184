//! The law of the dump of rules: what OUT.rules says of a live rule reads back as an edit that adds that rule.
//!
//! # What?
//!
//! A line of OUT.rules is a line of edits, as ovs-ofctl(8) `dump-flows` writes what `add-flow` reads: cookie, table and
//! priority stand before the match, the counts among them are skipped, and the rule's number is a comment. Here stands that
//! this is so of the whole line. Each law is the contract of a function that does nothing, so that to call it is to have its
//! facts.
//!
//! # What is promised
//!
//! - *The line of a rule reads back* (`printed_rules_read_back`): as an edit of the word `add` with the rule's table,
//!   priority, cookie, match and actions, and nothing else, whatever its counts are. Such an edit adds that rule, under the
//!   number that it has then.
//! - So do those of all rules that edits make which were read (`read_rules_read_back`), as the edits of a file are
//!   (`edits_of_files_were_read`), where their actions can be spelled again: a `load` to some bits of a field that takes no mask, or one that writes a VLAN without
//!   its tag bit, is read and has no other spelling than its own.
//! - *The dump of a run's rules, given as a file of edits, makes the rules of the run's last version*
//!   (`dumped_rules_read_back`), in the order of the dump and numbered in it. Of the rules that are gone there are comments.
//!   The dump has to be within the limits of such a file, in its lines and in their number.
//!
//! # Which definitions this refuses
//!
//! A dump that leaves the cookie, the table or the priority out, or writes one in a form that isn't read as itself; counts
//! that are items of the match; a number or a text that ends a line early or begins a comment; a match of every packet that
//! leaves two commas, or a comma before the list of actions.
//!
//! # How
//!
//! The items before the match are read one after the other (`Words`, `Numbers`). Those of the match state its parts wherever
//! nothing else is stated; so they do beside a table, a priority and a cookie, since none of them asks for these (`Framed`).
//! The list of actions begins where the line says, and reads back by itself (`Back`). What edits state is within its range, and
//! so are the rules that they make (`Stated`). Of these no two have one table, priority and match, in whatever order they
//! stand (`Distinct`), so that none of the edits that add them takes another away (`Again`).
//!
//! # What is left to others
//!
//! That a printed match and a printed list of actions read back is the law of `text_laws::matches` and of `text_laws`, and that
//! what was read can be spelled that of `text_laws::round_trips`.

mod dumps;
mod lines;

pub use dumps::dumped_rules_read_back;
pub use lines::{edits_of_files_were_read, printed_rules_read_back, read_rules_read_back};
