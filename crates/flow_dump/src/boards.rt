//! The dumps that are written board by board: journals and megaflows.
ghost use Rattle.std.specs.Prelude.{◌≡◌, All, OnOk};
ghost use Rattle.spec_board.specs.Texts.{journals_text};
ghost use Rattle.spec_run.specs.Megaflows.{megaflows_text};
ghost use Rattle.edge_io.specs.declared.outside.InUse.TheVariants.{Nothing, Created};
ghost use Rattle.edge_io.specs.Written.{WritesAll, WritesFile};
ghost use Rattle.board_steps.specs.Printable.{IsPrintableJournal};
ghost use Rattle.pmd_board.specs.BoardView.{journal_view};
ghost use Rattle.flow_dump.specs.Boards.{board_text, dump_text, IsPrintedWell};

use crate::journal::write_journal;
use crate::megaflows::write_entries;
use edge_io::{Failed, Shelf, write_file};
use pmd_board::Board;
use run_boards::Finished;
use run_case::Case;
use std::alloc::Global;

/// What is written of each board.
#[derive(Clone, Copy)]
enum OfBoard {
    Journal,
    Megaflows,
}

// Writes what is written of a board.
fn write_board<C: Case, S: Shelf>(
    alloc: Global,
    shelf: &mut S,
    line: &mut String,
    what: OfBoard,
    board: &Board<C>,
) -> Result<(), Failed>
    requires { S.in_use shelf.old ≡ Created }
    ensures writes { let text = board_text what C.run (journal_view board.now) in
        WritesAll S.Shelf shelf.old shelf.new text result }
    ensures printable { OnOk result (IsPrintedWell what (journal_view board.now)) }
{
    match what {
        OfBoard::Journal => write_journal(alloc, shelf, line, board),
        OfBoard::Megaflows => write_entries(shelf, line, board),
    }
}

// Writes it of each finished board.
fn write_boards<C: Case, S: Shelf>(
    alloc: Global,
    shelf: &mut S,
    line: &mut String,
    what: OfBoard,
    finished: &Finished<C>,
) -> Result<(), Failed>
    requires { S.in_use shelf.old ≡ Created }
    ensures writes { let text = dump_text what C.run finished.now in
        WritesAll S.Shelf shelf.old shelf.new text result }
    ensures printable { OnOk result (All (IsPrintedWell what) finished.now) }
{
    let of_ports = finished.boards();
    'boards: for board in of_ports {
        write_board(alloc, shelf, line, what, board)?;
    }
    Ok(())
}

// Writes it of finished boards, one after the other, to a new file of this name, and closes it.
fn write_dump<C: Case, S: Shelf>(
    alloc: Global,
    shelf: &mut S,
    name: &str,
    what: OfBoard,
    finished: &Finished<C>,
) -> Result<(), Failed>
    requires { S.in_use shelf.old ≡ Nothing }
    ensures file { let text = dump_text what C.run finished.now in
        WritesFile S.Shelf shelf.old shelf.new (name.now, text) result }
    ensures printable { OnOk result (All (IsPrintedWell what) finished.now) }
{
    let mut line = String::new(alloc);
    write_file(
        shelf,
        name,
        |shelf: &mut S| -> Result<(), Failed>
            requires { S.in_use shelf.old ≡ Created }
            ensures writes { let text = dump_text what C.run finished.entry.now in
                WritesAll S.Shelf shelf.old shelf.new text result }
            ensures printable { OnOk result (All (IsPrintedWell what) finished.entry.now) }
        { write_boards(alloc, shelf, &mut line, what, finished) },
    )
}

/// Writes the journals of finished boards, one after the other, to a new file of this name, and closes it.
///
/// It takes memory for one line at a time.
///
/// # Errors
///
/// - `Fault`: the shelf failed in creating, writing or closing the file, and its count of writing rose.
/// - `OutOfMemory`: there was no memory for a line, or for the shelf.
///
/// After an error the file was not created, or has a prefix of the text. It may then still be in use.
pub fn write_journals<C: Case, S: Shelf>(
    alloc: Global,
    shelf: &mut S,
    name: &str,
    finished: &Finished<C>,
) -> Result<(), Failed>
    requires { S.in_use shelf.old ≡ Nothing }
    ensures file { let text = journals_text finished.now in
        WritesFile S.Shelf shelf.old shelf.new (name.now, text) result }

    // So the text determines the journals, by `journals_text_is_one_to_one`.
    ensures printable { OnOk result (All IsPrintableJournal finished.now) }
{
    write_dump(alloc, shelf, name, OfBoard::Journal, finished)
}

/// Writes the megaflows that stand at finished boards, by port and number, to a new file of this name, and closes it.
///
/// It takes memory, and fails, as `write_journals` does.
pub fn write_megaflows<C: Case, S: Shelf>(
    alloc: Global,
    shelf: &mut S,
    name: &str,
    finished: &Finished<C>,
) -> Result<(), Failed>
    requires { S.in_use shelf.old ≡ Nothing }
    ensures file { let text = megaflows_text C.run finished.now in
        WritesFile S.Shelf shelf.old shelf.new (name.now, text) result }
{
    write_dump(alloc, shelf, name, OfBoard::Megaflows, finished)
}
