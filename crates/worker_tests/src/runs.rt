//! Runs of literal edits and frames, each with acts on the board of its port.
ghost use Rattle.std.specs.Prelude.{◌≡◌, IsTrue};
ghost use Rattle.std.specs.List.{list_all};
ghost use Rattle.spec_tables.specs.Edits.{has_sound_actions};
ghost use Rattle.run_case.specs.Places.{HasPort};

use crate::acts::{Act, first_wrong};
use crate::literal_run::{LiteralRun, PORT};
use pmd_board::Board;
use run_case::{Case, RunData};
use run_tables::ClassifierTables;
use std::alloc::{AllocError, Global};
use std::marker::Brand;
use std::process::Abort;
use std::sync::Wait;
use std::test::Fail;
use table_publish::{Editor, Seer, publish};
use table_versions::RunTables;

/// A flow limit that no row reaches.
const AMPLE: u32 = 8;

/// A run, and what acts on its port's board answer, one after the other.
pub struct Row<'a> {
    pub shows: &'a str,
    /// The file of edits.
    pub edits: &'a [u8],
    /// The last byte of each frame's destination. All frames come in at 1 second.
    pub frames: &'a [u8],
    /// How many bundles are published before the first act.
    pub published: u32,
    /// For how many upcalls the queue has room.
    pub room: usize,
    pub acts: &'a [Act<'a>],
}

/// That acts on each row's board answer as the row has it.
pub fn are_as_shown<R: Abort + Wait>(rt: &R, alloc: Global, rows: &[Row<'_>]) -> Result<(), Fail> {
    for row in rows {
        assert!(rt; first_wrong_of(rt, alloc, row)? == None, "{}", row.shows);
    }
    Ok(())
}

/// The place of the first act of a row, from 0, that doesn't answer as the row has it.
fn first_wrong_of<R: Wait>(rt: &R, alloc: Global, row: &Row<'_>) -> Result<Option<usize>, Fail> {
    let literal = LiteralRun::new(alloc, row.edits, row.frames)?;
    Ok(in_run::<Brand, R>(rt, alloc, literal, row)?)
}

/// Publishes so many bundles, or fewer where there are fewer.
fn published<C: Case, T: RunTables<C>, R: Wait>(
    rt: &R,
    editor: Editor<C, T>,
    run: &RunData<C>,
    count: u32,
) -> Editor<C, T> {
    let mut editor = editor;
    for _ in 0..count {
        editor = editor.publish_next(rt, run).0;
    }
    editor
}

fn in_run<C: Case + Send + Sync, R: Wait>(
    rt: &R,
    alloc: Global,
    literal: LiteralRun,
    row: &Row<'_>,
) -> Result<Option<usize>, AllocError>
    requires { C.run ≡ literal }
{
    let (run, rules) = literal.named::<C>(alloc)?;
    let wrong = over_tables::<C, ClassifierTables<'_, C>, R>(rt, alloc, &run, &rules, row);
    drop(run);
    drop(rules);
    wrong
}

fn over_tables<C: Case, T: RunTables<C>, R: Wait>(
    rt: &R,
    alloc: Global,
    run: &RunData<C>,
    store: T::Store,
    row: &Row<'_>,
) -> Result<Option<usize>, AllocError>
    requires port { HasPort C.run.ports PORT }
    requires sound { IsTrue (list_all has_sound_actions C.run.edits) }
{
    let (editor, mut seers) = publish::<C, T, R>(rt, alloc, store, 1)?;
    let editor = published(rt, editor, run, row.published);
    let seer = seers.pop();
    drop(seers);
    let wrong = match seer {
        Some(seer) => on_new_board(rt, alloc, seer, run, row),
        None => Err(AllocError),
    };
    editor.end(rt);
    wrong
}

fn on_new_board<C: Case, T: RunTables<C>, R: Wait>(
    rt: &R,
    alloc: Global,
    seer: Seer<C, T>,
    run: &RunData<C>,
    row: &Row<'_>,
) -> Result<Option<usize>, AllocError>
    requires { HasPort C.run.ports PORT }
{
    match Board::new(alloc, run, PORT, AMPLE) {
        Ok(board) => first_wrong(rt, alloc, seer, run, board, row.room, row.acts),
        Err(error) => {
            drop(seer);
            Err(error)
        }
    }
}
