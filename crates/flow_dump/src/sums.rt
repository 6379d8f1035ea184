//! The packets and bytes that each rule of a run has had, summed over all boards.
//!
//! # What?
//!
//! The board of each port credits the rules that its frames visit, each for itself, and what a megaflow decided is
//! credited later: until then the megaflow *owes* it. So what a rule has had is the sum, over all boards, of what it was
//! credited with there and of what the megaflows there owe it, each as often as it visits the rule.
//!
//! # What is promised
//!
//! `count_rules` gives for each rule that a run may have, by its number, exactly the counts that `spec_run` defines
//! (`AreCounts`). Nothing wraps. The only error is out of memory.
//!
//! # How
//!
//! There is one list of counts, and each board is gone through once: its totals are added rule by rule, and then what each
//! megaflow owes, once for each of its visits. So it takes as many steps as there are rules and visits at all ports
//! together, and memory for one list.
//!
//! What one board counts of a rule is less than 2^60: there are fewer than 2^32 frames of at most 2^18 bytes, and each
//! visits it at most 512 times (`board_laws`). So sums of 128 bits have room for any number of boards, as 64 bits would not.
//!
//! # What is left to others
//!
//! Which rules are live (`rule_tables`), and the lines in which counts are printed (`dump_lines::rules`).

mod counting;
mod sums;

pub use counting::count_rules;
