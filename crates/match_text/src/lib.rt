//! Matches as texts, read and printed: what a flow says before its actions.
//!
//! # What?
//!
//! A flow is a line of items with commas or white space between them: `table=3, tcp, tcp_dst=80, actions=2` (ovs-ofctl(8),
//! "Flow Syntax"). Before `actions=` they state the match, the table, the priority and the cookie. `read_match` reads them,
//! and `print_match` prints a match.
//!
//! # What is promised
//!
//! `spec_flow_text` says what a line states and which fault it has (`read_match` of `Matches`), and this crate answers just
//! that, unless memory runs out. `print_match` adds the text that `match_printed` of `Printed` gives; where memory runs
//! out the text begins with what it was.
//!
//! - Of several faults the first item's is told. In an item its name is tested first, then whether it gives a second
//!   table, priority or cookie, then its value, and last whether it states a bit again. A byte that isn't ASCII comes
//!   before all of them. Columns are exact.
//! - An item that states a bit which an earlier one states is a repetition, whether or not it says the same of it. Two
//!   items on the parts of one VLAN tag may both say that there is a tag.
//! - A match is normalised: what has no place in the packets that the flow is about is left out (ovs-fields(7),
//!   "Prerequisites"), and bits of the key that the mask doesn't count are 0.
//!
//! # How
//!
//! Words are slices of the line, and nothing is copied but numbers. The items are read from the left, each into parts:
//! bits of a field, with what they need of the flow. The list of parts is all that takes memory. A flow has a few, so
//! whether a part repeats another is a walk over the list.
//!
//! What is kept can't be told before the last item, since items come in any order. So the type and the protocol are looked
//! up at the end, and then the parts that are met are joined to one key and one mask. `read_flow` leaves that to whoever
//! knows where the match is to stand, since it has hundreds of bytes.
//!
//! A match is printed field by field, in their order, straight into the text: each item behind a comma where one stands
//! before it. No list of items is made. Most matches state bits of few fields, so registers, the IP header and the fields
//! behind it are passed over where no bit of them is stated.
//!
//! # What is left to others
//!
//! Names and values (`field_text`), the actions, the word before the flow, and which lines of a file are flows.
#![tactic(auto)]

mod flows;
mod items;
mod naming;
mod normal;
mod parts;
mod printing;
mod reading;
mod showing;
mod shown;
mod sofar;
mod stating;

pub use flows::Flow;
pub use printing::print_match;
pub use reading::{MatchText, read_flow, read_match};
