//! Steps files and mirrors files, which are for the ports of a switch, read whole.
//!
//! # What?
//!
//! - A *steps file* (`steps`) says which step is taken next, at which port: when an edit is published, a frame looked
//!   up, a pending frame translated or settled, an entry checked or put, and when a sweep begins and ends. A line is
//!   a step, or blank. `read_steps` makes a list of steps of the bytes of a file.
//! - A *mirrors file* (`mirrors`) says which traffic is copied to files of its own. A *mirror* names ports at which
//!   all that comes in is copied, and ports at which all that goes out is, by the items `select_src_port`,
//!   `select_dst_port` and `select_all` of ovs-vswitchd.conf.db(5), table Mirror. A line is a mirror, or blank.
//!   `read_mirrors` makes a list of mirrors of the bytes of a file.
//!
//! From `#` on a line is comment.
//!
//! # What is promised
//!
//! `spec_input::steps` and `spec_input::mirrors` say what the bytes of a file say for a switch of these ports, or what is wrong
//! with them first (`steps_of`, `mirrors_in`), and this crate answers just that, or out of memory. A fault has the
//! number of its line, and its column there. There are 16 mirrors at most.
//!
//! # How
//!
//! Each file is read line by line (`line_files`), and the line of a mirror item by item. Lines, words and items are
//! parts of the bytes; the list of steps, and the mirrors and their ports, alone take memory. A port is looked for
//! among those of the switch one by one: there are few.
//!
//! # What is left to others
//!
//! Opening and reading the files, and how long they may be; numbers (`text_numbers`), words, items and comments
//! (`field_text`); whether a step is met where it stands (`spec_board`); and what a mirror copies (`egress_capture::mirror`).
#![tactic(auto)]

mod mirror_line;
mod mirrors;
mod selectors;
mod step_line;
mod step_words;
mod steps;

pub use mirrors::{MOST_MIRRORS, MOST_MIRRORS_BYTES, read_mirrors};
pub use spec_case::RunStep;
pub use spec_input::FileFault;
pub use spec_input::mirrors::Mirror;
pub use steps::{MOST_STEPS, MOST_STEPS_BYTES, read_steps};
