//! What a whole run of the switch is: the verdict on its words and files, and what it writes and prints.
//!
//! - `Limits`: the quantities that have a limit.
//! - `Verdict`: the first refusal in the order of reading, or the run that the words and the files give.
//! - `Journals`: the journals of a run: those of its schedule, each of them legal and complete, and each frame decided
//!   once, as a plain scan of one version of the tables decides it, within its window.
//! - `Mirrored`: what the mirrors of a run copy, and the files of the copies.
//! - `Rules`: the dump of the rules after ovs-ofctl(8) `dump-flows`: a line for each rule that is live in the last
//!   version, with the packets and bytes that it is due, and one for each rule that is gone.
//! - `Megaflows`: a line for each megaflow that stands in the caches of the ports, after ovs-appctl(8)
//!   `dpctl/dump-flows`.
//! - `Summary`: how many frames came in and went out, how they were decided, and what stands in the caches.
//! - `Outputs`: the files that a run writes, by name and byte, and the summary that it prints.
//! - `CutShort`: how far they are written and printed where writing ends early.
//! - `Statuses`: the exit statuses, the texts that go with them, and when a text is printed whole.
//!
//! Whoever reads these, the specification crates below them and the contract of `run_switch`, with the traits of
//! `edge_io` that it speaks of, knows what is claimed of the switch, and needs to read no body.
#![tactic(auto)]

mod quantity;
mod ran;
mod rule_counts;

pub use quantity::Quantity;
pub use ran::Ran;
pub use rule_counts::RuleCounts;
