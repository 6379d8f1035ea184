ghost use Rattle.std.specs.Prelude.{◌≡◌, ◌≤◌, ◌<◌, ◌+◌, ◌*◌, All, IfOk, IsTrue, vec_len};
ghost use Rattle.std.specs.List.{list_all};
ghost use Rattle.spec_tables.specs.Edits.{has_sound_actions};

use crate::editor::Editor;
use crate::seer::Seer;
use run_case::Case;
use std::alloc::{AllocError, Global};
use std::sync::Wait;
use table_versions::RunTables;

/// The most seers of a publication.
pub const MOST_SEERS: usize = 64;

// For how many readers at a time a publication asks for places: each seer, the news that each of them has yet to learn,
// and one more news, which is made before an older one is given up.
fn places_for(seers: usize) -> usize
    requires { seers ≤ MOST_SEERS }
    ensures { result ≡ 2 * seers + 1 }
{
    2 * seers + 1
}

/// Publishes the tables of a run, kept over its rules: an editor that has published version 0, and so many seers of it.
/// Places are asked for twice as many readers, and one more.
///
/// The only error is out of memory, which is also answered where a seer finds no place among the readers. The handle is
/// for ending an editor that was made, where there is no memory for its seers.
pub fn publish<C: Case, T: RunTables<C>, R: Wait>(
    rt: &R,
    alloc: Global,
    store: T::Store,
    seers: usize,
) -> Result<(Editor<C, T>, Vec<Seer<C, T>>), AllocError>
    requires sound { IsTrue (list_all has_sound_actions C.run.edits) }
    requires seers { (1 ≤ seers) × (seers ≤ MOST_SEERS) }
    ensures editor { IfOk result (λ p. p.0.version ≡ 0) }
    ensures places { IfOk result (λ p. p.0.places ≡ 2 * seers + 1) }
    ensures seers { IfOk result (λ p. All (λ s. s.publication ≡ p.0.publication) p.1.items) }
    ensures new { IfOk result (λ p. All (λ s. s.version ≡ 0) p.1.items) }
    ensures count { IfOk result (λ p. vec_len p.1 ≡ seers) }
{
    let editor = Editor::new(rt, alloc, store, places_for(seers))?;
    match seers_of(alloc, &editor, seers) {
        Ok(seers) => Ok((editor, seers)),
        Err(error) => {
            editor.end(rt);
            Err(error)
        }
    }
}

// So many seers of an editor, which have seen nothing yet.
fn seers_of<C: Case, T: RunTables<C>>(
    alloc: Global,
    editor: &Editor<C, T>,
    count: usize,
) -> Result<Vec<Seer<C, T>>, AllocError>
    ensures seers { IfOk result (λ seers. All (λ s. s.publication ≡ editor.now.publication) seers.items) }
    ensures new { IfOk result (λ seers. All (λ s. s.version ≡ 0) seers.items) }
    ensures count { IfOk result (λ seers. vec_len seers ≡ count) }
{
    let mut seers = Vec::with_capacity(alloc, count)?;
    'seers: for _ in 0..count {
        seers.push(editor.seer()?)?;
    }
    Ok(seers)
}
