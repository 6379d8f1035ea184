//! Laws of what a run writes: its summary, its journals, its dump of rules, its export of flows, capture files, and all of
//! it in parts.
//!
//! Each law is the contract of a function that does nothing. Those of `endings` follow from the contract of `switch_app`,
//! that of `captures` from lemmas of `pcap_files`, and all others from the definitions alone.
//!
//! # The parts
//!
//! - `summaries`: how the counts of a summary come to each other, and which of them don't depend on who decided.
//! - `parts`: why a long run may be cut between two times and put together.
//! - `journals`: the text of a run's whole journals determines them.
//! - `rule_text`: a line of OUT.rules, and the whole file, read back as edits.
//! - `exports`: OUT.netflow reads back as the flows of the run.
//! - `captures`: reading the capture file of frames gives them back.
//! - `endings`: what the summary of a run that is done says, with any number of workers.
//!
//! Whoever reads or writes these files is left to others.
#![tactic(auto)]

pub mod captures;
pub mod endings;
pub mod exports;
pub mod journals;
pub mod parts;
pub mod rule_text;
pub mod summaries;
