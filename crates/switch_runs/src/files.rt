//! The files of a run: those that it reads, on a shelf, and those that it is to leave.
ghost use Rattle.std.specs.Prelude.{◌≡◌, IfOk};
ghost use Rattle.edge_io.specs.declared.outside.InUse.TheVariants.{Nothing};

use crate::bytes::{capture_of, lines_of};
use crate::texts::{RunText, Unread, cut_word, is_among, said_by};
use edge_io::Shelf;
use edge_io::memory::MemoryShelf;
use std::alloc::{AllocError, Global};

/// A file with its name.
pub type File = (String, Vec<u8>);

fn push_file(
    alloc: Global,
    files: &mut Vec<File>,
    name: &str,
    bytes: Vec<u8>,
) -> Result<(), AllocError> {
    files.push((String::from_str(alloc, name)?, bytes))?;
    Ok(())
}

// Adds the file of this name whose lines are those of a word.
fn push_lines(
    alloc: Global,
    files: &mut Vec<File>,
    name: &str,
    text: RunText<'_>,
    word: &str,
) -> Result<(), AllocError> {
    push_file(alloc, files, name, lines_of(alloc, text, word)?)
}

// Adds the capture files that the lines of a word are. In each a name comes first.
fn push_captures(
    alloc: Global,
    files: &mut Vec<File>,
    text: RunText<'_>,
    word: &str,
) -> Result<(), Unread> {
    for line in text.text_with(word).lines() {
        if let Some(said) = said_by(line, word) {
            let (name, items) = cut_word(said);
            push_file(alloc, files, name, capture_of(alloc, items)?)?;
        }
    }
    Ok(())
}

// Adds the file of a port.
fn push_sent(alloc: Global, files: &mut Vec<File>, said: &str) -> Result<(), Unread> {
    let (port, items) = cut_word(said);
    let bytes = capture_of(alloc, items)?;
    let name = format!(in alloc; "out.p{port}.pcap")?;
    push_file(alloc, files, name.as_str(), bytes)?;
    Ok(())
}

fn push_inputs(alloc: Global, files: &mut Vec<File>, text: RunText<'_>) -> Result<(), Unread> {
    for word in ["edits", "steps", "mirrors"] {
        push_lines(alloc, files, word, text, word)?;
    }
    push_captures(alloc, files, text, "trace")
}

/// This number alone, as that of a call that fails.
pub fn only(alloc: Global, number: u64) -> Result<Vec<u64>, AllocError> {
    Ok(vec![in alloc; number]?)
}

/// A shelf with the files that a run reads, whose call of this number fails. No call has the number 0.
pub fn shelf_of(alloc: Global, text: RunText<'_>, failing_call: u64) -> Result<MemoryShelf, Unread>
    ensures { IfOk result (λ shelf. ⟦<MemoryShelf as Shelf>⟧.in_use shelf ≡ Nothing) }
{
    let mut files = Vec::new(alloc);
    push_inputs(alloc, &mut files, text)?;
    let fails = only(alloc, failing_call)?;
    Ok(MemoryShelf::new(alloc, files, fails))
}

/// The files of the ports and of the rules that a run is to leave.
pub fn sent_of(alloc: Global, text: RunText<'_>) -> Result<Vec<File>, Unread> {
    let mut files = Vec::new(alloc);
    for line in text.text_with("sent").lines() {
        if let Some(said) = said_by(line, "sent") {
            push_sent(alloc, &mut files, said)?;
        }
    }
    push_lines(alloc, &mut files, "out.rules", text, "rules")?;
    Ok(files)
}

/// All files that a run is to leave, if it is done.
pub fn files_of(alloc: Global, text: RunText<'_>) -> Result<Vec<File>, Unread> {
    let mut files = sent_of(alloc, text)?;
    push_lines(alloc, &mut files, "out.megaflows", text, "megaflows")?;
    push_lines(alloc, &mut files, "out.journal", text, "journal")?;
    push_captures(alloc, &mut files, text, "file")?;
    Ok(files)
}

/// Whether these are the same files.
pub fn are_files(files: &[File], wanted: &[File]) -> bool {
    files.len() == wanted.len() && begin_with(files, wanted)
}

/// Whether the first of these files are the wanted ones.
pub fn begin_with(files: &[File], wanted: &[File]) -> bool {
    files.len() >= wanted.len()
        && files.iter().zip(wanted).all(|(file, want)| file.0.as_str() == want.0.as_str()
            && file.1 == want.1)
}

/// The names of the files that a run is to open, apart by spaces.
pub fn names_opened(alloc: Global, text: RunText<'_>) -> Result<String, AllocError> {
    match text.value("opened") {
        Some(names) => String::from_str(alloc, names),
        None => names_read(alloc, text),
    }
}

// The names of the files that a run reads which is done.
fn names_read(alloc: Global, text: RunText<'_>) -> Result<String, AllocError> {
    let mut names = String::from_str(alloc, "edits")?;
    for (option, name) in [("--steps", " steps"), ("--mirrors", " mirrors")] {
        if is_among(option, text.words()) {
            names.push_str(name)?;
        }
    }
    for line in text.text_with("trace").lines() {
        if let Some(said) = said_by(line, "trace") {
            names.push_str(" ")?;
            names.push_str(cut_word(said).0)?;
        }
    }
    Ok(names)
}

/// Whether files have these names and no others, in this order.
pub fn are_named(files: &[String], names: &str) -> bool {
    let mut files = files.iter();
    for name in names.split_ascii_whitespace() {
        if !is_named(files.next(), name) {
            return false;
        }
    }
    files.next().is_none()
}

fn is_named(file: Option<&String>, name: &str) -> bool {
    file.is_some_and(|file| file.as_str() == name)
}
