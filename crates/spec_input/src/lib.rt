//! What the switch is given: the words of its command line, files of lines, the file of edits, and the input that a number
//! makes. A word and a line are their bytes.
//!
//! - `Words`: the command, as `clap` knows commands, and what its matches say.
//! - `Lines`: a file that is read line by line, as a steps file and a mirrors file are too, and which fault of it decides.
//! - `Script`: the file of edits: sync lines, bundles, limits, and what each line says, an edit of the tables, a sync line,
//!   or the begin or the end of a bundle; and what the whole file says, or what is wrong with it first.
//! - `Given`: what is said of a function that reads a file of lines, beside what is defined.
//! - `Made`: the edits and the four traces that a number makes, byte by byte, by a linear congruential generator, for who
//!   wants a switch at work without files of one's own.
//!
//! The steps file, a schedule of one's own, stands in `steps` (`Steps`), the mirrors file (ovs-vswitchd.conf.db(5), table
//! Mirror) in `mirrors` (`Mirrors`).
#![tactic(auto)]

mod fault;
pub mod mirrors;
pub mod steps;

pub use fault::FileFault;
