//! Comparisons over a shelf in memory.
use crate::inputs::{shelf_of, words_of};
use diff_app::run_diff;
use edge_io::memory::MemorySink;
use std::alloc::{AllocError, Global};

/// What is compared, and how it ends.
#[derive(Drop)]
pub struct Comparison<'a> {
    /// The text of the file `old`.
    pub old: &'a str,
    /// That of the file `new`.
    pub new: &'a str,
    pub words: &'a [&'a str],
    pub status: u8,
    pub text: &'a str,
}

/// Whether a comparison, where the calls of these numbers fail, ends with its status, prints its text and writes
/// nothing. No call has the number 0.
pub fn ends_as_shown(
    alloc: Global,
    comparison: &Comparison<'_>,
    failing_read: u64,
    failing_print: u64,
) -> Result<bool, AllocError> {
    let words = words_of(alloc, comparison.words)?;
    let files = [("old", comparison.old), ("new", comparison.new)];
    let mut shelf = shelf_of(alloc, &files, failing_read)?;
    let mut say = MemorySink::new(alloc, vec![in alloc; failing_print]?);
    let status = run_diff(alloc, &words, &mut shelf, &mut say);
    let written = shelf.made().is_empty();
    Ok(status == comparison.status && say.text() == comparison.text.as_bytes() && written)
}
