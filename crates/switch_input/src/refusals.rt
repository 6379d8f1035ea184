//! Why words and files are refused, and how it is told that a run was: an exit status, and a text that is printed.
//!
//! # What?
//!
//! Words and files can be refused, files can't be read or written, and memory may run out. `InputRefusal` is why
//! nothing could be read; for the file of edits, the steps file and the mirrors file it has the line and the column at which
//! they are wrong. `spec_run` has a status and a text for each refusal; this crate gives the one and prints the other, to a
//! sink.
//!
//! # What is promised
//!
//! The statuses and the texts are those of `spec_run`. A sink that tells its bytes has got all of the text where it
//! needs no memory and didn't fail, and else a prefix. Nothing else is printed, and no call takes memory or can fail.
//!
//! What reading files does to a shelf has a word here for whoever reads: `ReadsFiles` (`specs/Reading`).
//!
//! # How
//!
//! A refusal lends the names that it tells from the words. Texts are printed piece by piece, up to the first at which
//! the sink fails (`say_pieces`), so that why a run was refused can be told without memory. Digits are those of `itoa`.
//!
//! # What is left to others
//!
//! Which refusal it is (`switch_input`, `switch_output`; of a file of lines `refused_text` tells), and what ends with
//! the status. No file is known here, so that what is told is proved beside what is read.

mod limits;
mod refusal;
mod say;
mod status;
mod text_refusal;

pub use limits::{
    MOST_EDITS_BYTES, MOST_FRAMES, MOST_MIRRORS_BYTES, MOST_STEPS_BYTES, MOST_TRACE_BYTES,
};
pub use refusal::{InputFault, InputRefusal};
pub use say::{say_input_refusal, say_out_of_memory, say_pieces, say_write_fault};
pub use status::{
    DONE, LIMIT, OUT_OF_MEMORY, READ_FAULT, TEXT, TRACE, USAGE, WRITE_FAULT, input_status,
};
pub use text_refusal::refused_text;
