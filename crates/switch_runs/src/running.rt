//! Runs over shelves in memory, and whether they end as their texts say.
ghost use Rattle.std.specs.Prelude.{◌≡◌};
ghost use Rattle.edge_io.specs.declared.outside.InUse.TheVariants.{Nothing};

use crate::bytes::{lines_of, text_of};
use crate::files::{
    File, are_files, are_named, begin_with, files_of, names_opened, sent_of, shelf_of,
};
use crate::texts::{RunText, Unread, cut_word};
use edge_io::memory::{MemoryShelf, MemorySink};
use edge_io::{OpenGate, Shelf};
use std::alloc::{AllocError, Global};
use std::sync::Wait;
use std::thread::Threads;
use switch_app::run_switch;

/// The status of a run that is done.
pub const DONE: u8 = 0;

// What is told of a table that hasn't as many runs as it should.
const MISCOUNTED: &str = "the table has another number of runs";

/// Runs the switch on words that are apart by spaces, and gives its status.
pub fn status_of<R: Threads + Wait + Sync, S: Shelf>(
    rt: &R,
    alloc: Global,
    words: &str,
    shelf: &mut S,
    say: &mut MemorySink,
) -> Result<u8, AllocError>
    requires { S.in_use shelf.old ≡ Nothing }
{
    let mut owned = Vec::new(alloc);
    for word in words.split_ascii_whitespace() {
        owned.push(String::from_str(alloc, word)?)?;
    }
    Ok(run_switch(rt, alloc, &owned, shelf, say, &OpenGate))
}

/// How a run ended.
#[derive(Drop)]
pub struct Ended {
    pub status: u8,
    pub shelf: MemoryShelf,
    pub say: MemorySink,
}

/// Runs the switch over a shelf, and over a sink whose calls of these numbers fail.
pub fn run_over<R: Threads + Wait + Sync>(
    rt: &R,
    alloc: Global,
    words: &str,
    mut shelf: MemoryShelf,
    failing_prints: Vec<u64>,
) -> Result<Ended, AllocError>
    requires { ⟦<MemoryShelf as Shelf>⟧.in_use shelf ≡ Nothing }
{
    let mut say = MemorySink::new(alloc, failing_prints);
    match status_of(rt, alloc, words, &mut shelf, &mut say) {
        Ok(status) => Ok(Ended { status, shelf, say }),
        Err(error) => {
            drop(shelf);
            drop(say);
            Err(error)
        }
    }
}

impl Ended {
    /// Whether it has this status, and told this text.
    pub fn tells(&self, alloc: Global, status: u8, lines: &str) -> Result<bool, AllocError> {
        let text = text_of(alloc, lines)?;
        Ok(self.status == status && self.say.text() == text.as_slice())
    }

    /// Whether it left these files, and none in use.
    pub fn leaves(&self, files: &[File]) -> bool {
        self.shelf.current().is_none() && are_files(self.shelf.made(), files)
    }

    /// The name of the file that was opened last, or asked for in vain.
    pub fn last_opened(&self) -> Option<&str> {
        self.shelf.opened().last().map(|name| name.as_str())
    }

    /// Whether it has the status of a run, and printed what it says.
    pub fn has_told(&self, alloc: Global, text: RunText<'_>) -> Result<bool, Unread> {
        let status = text.number("status", u64::from(DONE))?;
        let lines = lines_of(alloc, text, "prints")?;
        Ok(u64::from(self.status) == status && self.say.text() == lines.as_slice())
    }

    // Whether it opened what a run is to open.
    fn has_opened(&self, alloc: Global, text: RunText<'_>) -> Result<bool, AllocError> {
        let names = names_opened(alloc, text)?;
        Ok(are_named(self.shelf.opened(), names.as_str()))
    }

    // Whether the file in use is that of a run.
    fn has_in_use(&self, alloc: Global, text: RunText<'_>) -> Result<bool, AllocError> {
        let Some(said) = text.value("in_use") else {
            return Ok(self.shelf.current().is_none());
        };
        let (name, lines) = cut_word(said);
        let wanted = text_of(alloc, lines)?;
        Ok(is_file(self.shelf.current(), name, &wanted))
    }

    // Whether it left the files that a run says.
    fn has_made(&self, alloc: Global, text: RunText<'_>) -> Result<bool, Unread> {
        let wanted = files_of(alloc, text)?;
        let whole = whole_of(text, wanted.len())?;
        Ok(
            wanted
                .get(..whole)
                .is_some_and(|wanted| are_files(self.shelf.made(), wanted)),
        )
    }

    // Whether it ended as a run's text says.
    fn is_as_told(&self, alloc: Global, text: RunText<'_>) -> Result<bool, Unread> {
        Ok(
            self.has_told(alloc, text)?
                && self.has_opened(alloc, text)?
                && self.has_in_use(alloc, text)?
                && self.has_made(alloc, text)?,
        )
    }

    // Whether it is done, and sent and counted for rules what a run says.
    fn has_sent(&self, alloc: Global, text: RunText<'_>) -> Result<bool, Unread> {
        let sent = sent_of(alloc, text)?;
        Ok(
            self.status == DONE
                && begin_with(self.shelf.made(), &sent)
                && self.has_opened(alloc, text)?,
        )
    }
}

fn is_file(file: Option<(&str, &[u8])>, wanted: &str, bytes: &[u8]) -> bool {
    file.is_some_and(|(name, written)| name == wanted && written == bytes)
}

// How many of so many files a run leaves whole.
fn whole_of(text: RunText<'_>, files: usize) -> Result<usize, Unread> {
    let usual = if text.is_done() { files as u64 } else { 0 };
    Ok(text.number("whole", usual)? as usize)
}

/// Runs the switch over the files that a run reads, where the shelf's call of this number fails.
pub fn run_with_failing<R: Threads + Wait + Sync>(
    rt: &R,
    alloc: Global,
    text: RunText<'_>,
    failing_call: u64,
) -> Result<Ended, Unread> {
    let shelf = shelf_of(alloc, text, failing_call)?;
    Ok(run_over(rt, alloc, text.words(), shelf, Vec::new(alloc))?)
}

/// Whether a run ends as its text says.
pub fn ends_as_told<R: Threads + Wait + Sync>(
    rt: &R,
    alloc: Global,
    text: RunText<'_>,
) -> Result<bool, Unread> {
    if !text.is_sound() {
        return Err(Unread::Malformed);
    }
    let ended = run_with_failing(rt, alloc, text, text.number("fails", 0)?)?;
    let told = ended.is_as_told(alloc, text);
    drop(ended);
    told
}

/// What the first run of a table shows that ends otherwise than it says, with what the other text says of all runs of the
/// table; or that it hasn't so many runs.
pub fn first_that_differs<'a, R: Threads + Wait + Sync>(
    rt: &R,
    alloc: Global,
    table: &'a str,
    like: &'a str,
    count: usize,
) -> Option<&'a str> {
    let mut runs = 0_usize;
    for own in table.split("\n\n") {
        let text = RunText::new(own, like);
        if !ends_as_told(rt, alloc, text).unwrap_or(false) {
            return Some(text.shows());
        }
        runs = runs.saturating_add(1);
    }
    if runs == count {
        None
    } else {
        Some(MISCOUNTED)
    }
}

/// Whether a run with so many workers is done and leaves its files of ports and of rules, whatever steps the workers
/// chose; and whether it opened all that it names, each once.
pub fn sends_by_workers<R: Threads + Wait + Sync>(
    rt: &R,
    alloc: Global,
    text: RunText<'_>,
    workers: &str,
) -> Result<bool, Unread> {
    let run = text.words();
    let words = format!(in alloc; "--workers {workers} {run}")?;
    let shelf = shelf_of(alloc, text, 0)?;
    let ended = run_over(rt, alloc, words.as_str(), shelf, Vec::new(alloc))?;
    let sent = ended.has_sent(alloc, text);
    drop(ended);
    sent
}
