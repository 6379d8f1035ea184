//! The lines of the dump of rules, and the order in which they stand.
//!
//! # What?
//!
//! A dump of rules tells of each rule of the flow tables what it states and how many packets and bytes it has had, after
//! ovs-ofctl(8) `dump-flows`. A *live* rule is one of the last version, and has a line that can be read again as a line of
//! edits. A rule that an edit added and that isn't live is *gone*, and has a line that is a comment. `spec_run` has the
//! form of both.
//!
//! # What is promised
//!
//! - `push_rule` and `push_gone` add exactly the line that the definition gives, with its line feed, and so does
//!   `push_live` for the live rule of a number, with the cookie and the actions that it has in the last version. Out of
//!   memory is the only error, and then the text has what it had, and perhaps a part of the line.
//! - `live_in_order` gives the places of exactly the live rules, in the order of the definition: by table, then by
//!   falling priority, then by number. `is_gone` tells whether a rule is gone.
//! - Counts are numbers of 128 bits, and are printed exactly.
//!
//! What speaks of all rules asks that edits of sound actions made them: only those can be spelled.
//!
//! # How
//!
//! A line is printed piece by piece at the end of the caller's string. The comma before a match is taken back where the
//! match has no text.
//!
//! The fields of a `RulePlace` stand in the order of their weight, so that its derived order is the one that is wanted,
//! and std's sort does the rest, in n log n steps. Each live rule is found by its number, since it stands in its place as
//! its edit added it, but for cookie and actions (`proofs/Added`).
//!
//! # What is left to others
//!
//! What rules have counted (`flow_dump::sums`), and the file (`flow_dump`). Matches and actions as text are of `match_text` and
//! `action_text`.

mod live;
mod places;
mod printing;

pub use live::{is_gone, live_in_order, push_live};
pub use places::RulePlace;
pub use printing::{push_gone, push_rule};
