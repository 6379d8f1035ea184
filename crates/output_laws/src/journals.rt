//! The law of written journals: the text of a run's journals determines them.
//!
//! # What?
//!
//! OUT.journal has a line for each step of each port's board. Whoever reads the file wants to know that nothing was lost in
//! writing: that the steps, with all their numbers and results, are those that the lines say, and no others have the same
//! lines. The text of journals determines them as long as each number in it is printed with all of its digits
//! (`board_steps`). Here stands that of whole journals each number is.
//!
//! # What is promised
//!
//! Of any run whose ports, frames, blocks and versions have numbers that are printed whole (`HasFewNumbers`), and of whole
//! journals of it:
//!
//! - *Every number in them is printed with all of its digits* (`whole_journals_are_printable`).
//! - *No two lists of them have one text* (`texts_determine_whole_journals`).
//!
//! # Which definitions this refuses
//!
//! A board that numbers its entries by anything that may grow without bound, as by the sweeps that looked at them; a step
//! that tells of an entry that was never made, of a place that the trace lacks, or of a version that isn't of the run.
//!
//! # How
//!
//! Places are those of the trace, and versions those of a block. An entry has the number of those that were made by then. One
//! is made only by a settle, and a settle takes a pending place away, so that the entries made and the places pending are
//! together no more than the places that were looked up (`proofs/Made`). With what every legal journal has (`board_laws`)
//! each number of a step is then no greater than one of the four (`proofs/Steps`).
//!
//! # What is left to others
//!
//! That the runs of the switch have such numbers, and that its journals are whole, is the contract of the switch. That the
//! file has this text, likewise.

mod printable;

pub use printable::{texts_determine_whole_journals, whole_journals_are_printable};
