//! Scripts: the file of edits, with its bundles and its sync lines, read whole.
//!
//! # What?
//!
//! A *script* is what a file of edits says: the edits of the tables, in the order of its lines, the bundles that they make,
//! and the sync points between these. A line is an edit as ovs-ofctl(8) writes flows, with the word of the edit before it,
//! or `sync` and a time in seconds, or blank. The edits between the lines `begin` and `commit` are one bundle, and each
//! other edit is one by itself. From `#` on a line is comment. `read_script` makes a script of the bytes of a file.
//!
//! # What is promised
//!
//! `spec_input` says what the bytes of a file say, or what is wrong with them first (`script_of`), and this crate answers
//! just that.
//!
//! - Where a script is read, it is the one that the bytes say, edit by edit and point by point.
//! - Where a fault is answered, it is the first of the file, with the number of its line, and its column where it is one of
//!   text. Memory that runs out is the one other answer.
//! - The actions of each edit are sound: their tables, slices, values and masks are within their ranges.
//! - Each bundle has an edit, and together they have all edits. A file that ends in a bundle is refused where that was
//!   begun, if no line has a fault.
//! - The rules of all versions that the edits make, bundle by bundle, are those of `rule_tables`, where they change no
//!   more than 1,048,576; else there are none.
//! - A script has at most 32,768 edits and 63 sync points. Times of sync points never fall, and neither do the counts of
//!   the bundles before them, which are no more than there are.
//!
//! # How
//!
//! The file is read line by line (`line_files`). Words are parts of the bytes: nothing is copied but the numbers that they
//! spell. An edit takes memory for its actions, and for what its match states, which is given back with the line. A
//! line is looked at a few times: for its end, for its comment and its first word, which tells what the line is, and by the
//! readers of edits, matches and actions.
//!
//! What is read so far stands in one `Script`, to which each line adds, and beside it where the bundle was begun that the
//! lines are in. A bundle is told by how many edits stand through it; an edit outside of one closes its own at once. A sync
//! point counts the bundles that stand there.
//!
//! A run needs the rules and not the edits, which would take as much memory again. So a bundle makes the next version of
//! the rules as soon as it ends, and only the edits of a bundle that was begun are kept. Which edits there were is known
//! to clauses alone: a script lists them as snapshots, which have no bytes. No rules are made after the first bundle by
//! which the edits change more than they may, since changes take memory and time; the lines after it are still read,
//! since a fault of theirs comes first.
//!
//! Most functions read what one definition says, and have its name.
//!
//! # What is left to others
//!
//! Opening and reading the file, and how long it may be; the match and the actions of a flow (`match_text`,
//! `action_text`); what counts as white space and as comment (`field_text`); numbers (`text_numbers`); and all that edits
//! do to the tables.
#![tactic(auto)]

mod edit_line;
mod line_words;
mod script;
mod word_lines;

pub use edit_line::read_edit;
pub use rule_tables::{Edit, SyncPoint};
pub use script::{MOST_BYTES, MOST_CHANGES, MOST_EDITS, ReadEdits, Script, read_script};
pub use spec_input::FileFault;
