ghost use Rattle.std.specs.Prelude.{◌≡◌, Some, IsSome};
ghost use Rattle.std.specs.Option.{option_map};
ghost use Rattle.spec_board.specs.Results.{entry_of};
ghost use Rattle.spec_flow_text.specs.Within.{AreWithinFields};
ghost use Rattle.spec_run.specs.Megaflows.{megaflow_line, port_megaflows_text};
ghost use Rattle.edge_io.specs.declared.outside.InUse.TheVariants.{Created};
ghost use Rattle.edge_io.specs.Written.{WritesAll};
ghost use Rattle.pmd_board.specs.BoardView.{journal_view, state_of};
ghost use Rattle.dump_lines.specs.Views.{entry_with};
ghost use Rattle.flow_dump.specs.Numbered.{line_of_number};

use action_text::translation_is_within_fields;
use board_laws::{entries_are_found, entries_cover_what_they_were_made_for};
use dump_lines::megaflows::push_megaflow;
use edge_io::{Failed, Shelf, write_all};
use megaflow_table::Entry;
use pmd_board::Board;
use run_case::Case;
use spec_actions::DpAction;

// Writes the line of a megaflow that has these actions.
fn write_entry<S: Shelf>(
    shelf: &mut S,
    line: &mut String,
    port: u16,
    entry: &Entry,
    actions: &[DpAction],
) -> Result<(), Failed>
    requires created { S.in_use shelf.old ≡ Created }
    requires within { AreWithinFields actions.now }
    ensures { let text = megaflow_line port (entry_with actions.now entry.now) in
        WritesAll S.Shelf shelf.old shelf.new text result }
{
    line.clear();
    push_megaflow(line, port, entry, actions)?;
    write_all(shelf, line.as_bytes())
}

// The actions of a live megaflow. They are those of a translation, and so they can be printed.
fn printable_actions<C: Case>(board: &Board<C>, number: u32) -> &[DpAction]
    requires { IsSome (entry_of number (state_of C.run board.now).entries) }
    ensures same { option_map (λ e. e.actions) (entry_of number (state_of C.run board.now).entries)
        ≡ Some result.now }
    ensures within { AreWithinFields result.now }
{
    entries_cover_what_they_were_made_for();
    translation_is_within_fields();
    let _ = board.journal();
    board.actions(number)
}

// Writes the line of the megaflow of a number.
fn write_numbered<C: Case, S: Shelf>(
    shelf: &mut S,
    line: &mut String,
    board: &Board<C>,
    number: u32,
) -> Result<(), Failed>
    requires created { S.in_use shelf.old ≡ Created }
    requires live { IsSome (entry_of number (state_of C.run board.now).entries) }
    ensures { let text = line_of_number board.now.port (state_of C.run board.now).entries number in
        WritesAll S.Shelf shelf.old shelf.new text result }
{
    let actions = printable_actions(board, number);
    match board.entries().get(number) {
        Some(entry) => write_entry(shelf, line, board.port(), entry, actions),
        None => unreachable!(),
    }
}

/// Writes the lines of the megaflows of a board, in rising order of their numbers.
pub(crate) fn write_entries<C: Case, S: Shelf>(
    shelf: &mut S,
    line: &mut String,
    board: &Board<C>,
) -> Result<(), Failed>
    requires { S.in_use shelf.old ≡ Created }
    ensures { let text = port_megaflows_text C.run (journal_view board.now) in
        WritesAll S.Shelf shelf.old shelf.new text result }
{
    entries_are_found();
    let _ = board.journal();
    let live = board.entries().numbers();
    'numbers: for number in live {
        write_numbered(shelf, line, board, *number)?;
    }
    Ok(())
}
