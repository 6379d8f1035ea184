//! Whole runs over files in memory, for tests: what a run is made of, and whether it ends as it should.
//!
//! # What?
//!
//! A test of the switch gives it words, edits and traces, and compares all that it leaves. A run is a text, and a table a text
//! of runs with an empty line between them, so that a proof that names a table has one constant to write out, and no more. A
//! text is read while a test runs (`texts`), the files of a run are made of it (`files`), with the bytes of capture files
//! (`bytes`, with headers by name in `headers`), and `run_switch` is called over them and all that is left compared
//! (`running`). Runs that several tables are like stand in `known`.
//!
//! # How a run is written
//!
//! Each line is a word and what it says. A word without a line says nothing, or what is usual.
//!
//! - `shows TEXT`: what is told where the run ends otherwise. Each run has it.
//! - `words WORD WORD ..`: the command line; else `edits out 1=a.pcap 2=`.
//! - `edits LINE`, `steps LINE`, `mirrors LINE`: a line of the file of this name.
//! - `trace NAME ITEM ..`: a capture file that is read.
//! - `fails NUMBER`: the call of the shelf that fails, counted from 1.
//! - `opened NAME ..`: the files that are opened, or asked for in vain, in order; else `edits`, `steps` and `mirrors` if
//!   the command line asks for them by options, and the traces.
//! - `status NUMBER`: the status, where it isn't 0.
//! - `prints LINE`: a line of what is printed.
//! - `sent PORT ITEM ..`: the capture file of a port, in the order of the command line.
//! - `rules LINE`, `megaflows LINE`, `journal LINE`: a line of that dump.
//! - `file NAME ITEM ..`: a file that comes after the dumps.
//! - `whole NUMBER`: how many of these files are left whole, the first ones; else all where the status is 0, and else none.
//! - `in_use NAME LINE`: the file that is still in use, and what was written to it; else there is none.
//!
//! The lines of a file and what is printed go on in further lines of the same word, or stand in one with `|` between them.
//! Items make a capture file, in microseconds and little-endian, one after another:
//!
//! - `SECOND`: a frame of 60 bytes from 00:00:00:00:00:01 to 00:00:00:00:00:02, of no type that a field tells.
//! - `SECOND>BYTE`: the same to the address that ends with this byte.
//! - `SECOND:HEADER.HEADER..`: a frame with these headers, each by a name of `headers` or in hexadecimal digits.
//! - `..*TIMES`: one of these, so many times.
//! - `-BYTES`: so many bytes are cut off from what stands before.
//! - `@OFFSET:DIGITS`: bytes that stand there in place of others.
//! - `=HEADER.HEADER..`: what stands before is let go, and the file begins with these bytes.
//!
//! A test may give another text beside a table, as that of a known run. It says what a run leaves out: of each word the
//! lines of the run count, or else those of that text.
//!
//! # What is promised
//!
//! Nothing but that it is safe. So that no test passes for a text that isn't read, whatever isn't written as above counts as
//! a run that ends otherwise: an unknown word, a word twice that stands once, a number or a frame that is none, what is left
//! where nothing is, and runs that are more or fewer than the test says, as where an empty line is lost.
//!
//! # What is left to others
//!
//! The tables of runs, and the tests: `switch_tests` and `refusal_tests`. Nothing but tests is built on this crate.
#![tactic(auto)]

pub mod bytes;
pub mod files;
pub mod headers;
pub mod known;
pub mod running;
pub mod texts;
