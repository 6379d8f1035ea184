//! The words of the command line, read.
//!
//! # What?
//!
//! `read_command` says what the words after the program's name ask for: how many workers, how many megaflows a port may
//! have, what is run, and what is written beside. `read_port_number` reads the number of a port by itself, for whoever has ports in other words.
//!
//! # What is promised
//!
//! `spec_input` says which words the program takes and what they say (`command_of`): by what `clap` has of the command,
//! and then by the tests of numbers, names and ports. This crate answers just that, or out of memory.
//!
//! # How
//!
//! The command is built for `clap`, which makes its matches (`parsing`), and each argument is read of these (`reading`).
//! Names are parts of the words; the list of ports alone takes memory of its own, and what `clap` takes is given up.
//!
//! # What is left to others
//!
//! What is printed where words are refused, and all that is done with what they say.
#![tactic(auto)]

mod parsing;
mod ports;
mod reading;

pub use ports::{PortWord, read_port_number};
pub use reading::{Command, FilesNamed, Input, read_command};
