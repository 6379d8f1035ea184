ghost use Rattle.std.specs.Prelude.{◌≡◌, ◌≤◌, ℕ, length, IfOk};
ghost use Rattle.spec_case.specs.Run.{edit_count};
ghost use Rattle.pmd_board.specs.BoardView.{journal_view, journals_view};
ghost use Rattle.flow_dump.specs.Sums.{sums_view, with_total};
ghost use Rattle.flow_dump.specs.Counted.{AreCounts, IsBoundedAt, HasRoom, counts_at};
ghost use Rattle.port_caches.specs.Sums.{nothing, total_of};

use crate::sums::sums::{add_owed, add_totals};
use board_laws::{counts_are_bounded, visits_of_entries_are_rules};
use pmd_board::Board;
use run_case::{Case, RunData};
use spec_run::RuleCounts;
use std::alloc::{AllocError, Global};

// Adds what a board counted of each rule.
fn add_board<C: Case>(counts: &mut [RuleCounts], run: &RunData<C>, board: &Board<C>)
    requires rules { length counts.old ≡ edit_count C.run }
    requires room { (rule : ℕ) → HasRoom (total_of (sums_view counts.old) rule) }
    ensures counted { (rule : ℕ) → total_of (sums_view counts.new) rule
        ≡ with_total (counts_at C.run (journal_view board.now) rule) (total_of (sums_view counts.old) rule) }
    ensures bounded { (rule : ℕ) → IsBoundedAt C.run (journal_view board.now) rule }
{
    counts_are_bounded();
    visits_of_entries_are_rules();
    let _ = run.edit_count();
    let _ = run.frames(board.port());
    let _ = board.journal();
    let totals = board.totals();
    let flows = board.entries();
    add_totals(counts, totals);
    add_owed(counts, flows);
}

// Adds what each board counted, where nothing was counted before.
fn add_boards<C: Case>(counts: &mut [RuleCounts], run: &RunData<C>, boards: &[Board<C>])
    requires rules { length counts.old ≡ edit_count C.run }
    requires none { (rule : ℕ) → total_of (sums_view counts.old) rule ≡ nothing }
    ensures { AreCounts C.run (journals_view boards.now) counts.new }
{
    // A count of boards has 64 bits.
    let _ = boards.len();
    'boards: for board in boards {
        add_board(counts, run, board);
    }
}

/// The packets and bytes that each rule of a run has had by these boards: what it was credited with, and what megaflows
/// owe it.
///
/// It takes memory for the counts of each rule; there may be none.
pub fn count_rules<C: Case>(
    alloc: Global,
    run: &RunData<C>,
    boards: &[Board<C>],
) -> Result<Vec<RuleCounts>, AllocError>
    ensures { IfOk result (λ counts. AreCounts C.run (journals_view boards.now) counts.items) }
{
    let none = RuleCounts {
        packets: 0,
        bytes: 0,
    };
    let mut counts = vec![in alloc; none; run.edit_count() as usize]?;
    add_boards(&mut counts, run, boards);
    Ok(counts)
}
