//! Traces over a shelf in memory.
use crate::inputs::{shelf_of, words_of};
use edge_io::memory::MemorySink;
use std::alloc::{AllocError, Global};
use trace_app::run_trace;

/// What is traced, and how it ends.
#[derive(Drop)]
pub struct Trace<'a> {
    /// The text of the file `edits`.
    pub edits: &'a str,
    pub words: &'a [&'a str],
    pub status: u8,
    pub text: &'a str,
}

/// The words that name that file, a flow, and a switch of two ports.
pub fn words_for(flow: &str) -> [&str; 3] {
    ["edits", flow, "1,2"]
}

/// Whether a trace, where the calls of these numbers fail, ends with its status, prints its text and writes nothing. No call
/// has the number 0.
pub fn ends_as_shown(
    alloc: Global,
    trace: &Trace<'_>,
    failing_read: u64,
    failing_print: u64,
) -> Result<bool, AllocError> {
    let words = words_of(alloc, trace.words)?;
    let mut shelf = shelf_of(alloc, &[("edits", trace.edits)], failing_read)?;
    let mut say = MemorySink::new(alloc, vec![in alloc; failing_print]?);
    let status = run_trace(alloc, &words, &mut shelf, &mut say);
    let written = shelf.made().is_empty();
    Ok(status == trace.status && say.text() == trace.text.as_bytes() && written)
}
