//! The command `megadiff [--brief] OLD NEW PORT..`.
//!
//! All that it does is done by `run_diff`, whose contract says what is read, what is printed and which status it ends
//! with, over any files and any standard output that keep to the traits of `edge_io`. This file hands it the real
//! ones: the words after the program's name, the files of the system by names from the current folder, and standard
//! output.
//!
//! What is not proved is what the system does. `edge_io::real` promises only that each failed call is counted, and from
//! there on `run_diff` answers for what it is told.
#![tactic(auto)]

use diff_app::{OUT_OF_MEMORY, run_diff};
use edge_io::real::{RealShelf, StdoutSink};
use edge_io::say_all;
use std::env;
use std::io::{self, ErrorKind};
use std::process::ExitCode;

/// The words after the program's name. One that isn't text is an error.
fn words_of(rt: &HostRuntime) -> io::Result<Vec<String>> {
    Ok(env::args(rt)?.skip(1).collect(rt.alloc())?)
}

fn main(rt: HostRuntime) -> ExitCode {
    let mut say = StdoutSink::new(&rt);
    let words = match words_of(&rt) {
        Ok(words) => words,
        Err(error) if error.kind() == ErrorKind::OutOfMemory => {
            let _ = say_all(&mut say, b"out of memory\n");
            return ExitCode::from(OUT_OF_MEMORY);
        }
        // Words that aren't text are no command, and neither are no words.
        Err(_) => Vec::new(rt.alloc()),
    };
    let mut shelf = RealShelf::new(&rt);
    ExitCode::from(run_diff(rt.alloc(), &words, &mut shelf, &mut say))
}
