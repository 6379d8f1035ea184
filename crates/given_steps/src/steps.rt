//! Given steps of one board.
ghost use Rattle.std.specs.Prelude.{◌≡◌, ℕ, IfOk, OnOk, IfSome, IfNone, Some, true, false};
ghost use Rattle.std.specs.Option.{option_map};
ghost use Rattle.ovs_fields.specs.Packed.{numbers};
ghost use Rattle.spec_case.specs.declared.run_step.RunStep.TheVariants as given;
ghost use Rattle.spec_board.specs.Results.{entry_of};
ghost use Rattle.spec_board.specs.Effects.{is_among};
ghost use Rattle.spec_board.specs.GivenSteps.{given_step, port_of};
ghost use Rattle.pmd_board.specs.BoardView.{state_of};
ghost use Rattle.given_steps.specs.ScheduledViews.{scheduled};
ghost use Rattle.given_steps.specs.ByNumber.{by_number};
ghost use Rattle.given_steps.specs.Taken.{Takes};

use crate::attempts;
use crate::kept::{give_up, keep};
use crate::scheduled_board::ScheduledBoard;
use ovs_fields::Key;
use pipe_model::SpareLists;
use pmd_board::Board;
use run_case::{Case, RunData};
use spec_case::RunStep;
use std::alloc::{AllocError, Global};
use table_versions::{RunTables, Tables};

// ---- frames

// The next frame is looked up.
fn rx<C: Case>(run: &RunData<C>, board: &mut ScheduledBoard<C>) -> bool
    ensures { (newest : ℕ)
        → Takes C.run newest (given.Rx board.old.board.port) board.old result board.new }
{
    let port = board.board.port();
    let place = board.board.next();
    if place > run.frames(port) {
        return false;
    }
    let at = run.keyed(port, place);
    attempts::look(&mut board.board, &at)
}

// The key of a pending frame is translated, and the translation is kept.
fn snap<C: Case, T: RunTables<C>>(
    alloc: Global,
    run: &RunData<C>,
    tables: &Tables<C, T>,
    board: &mut ScheduledBoard<C>,
    place: u32,
) -> Result<bool, AllocError>
    ensures { IfOk result
        (λ met. Takes C.run tables.now (given.Snap board.old.board.port place)
        board.old met board.new) }
{
    let _ = board.board.journal();
    if !board.board.is_pending(place) {
        return Ok(false);
    }
    let at = run.keyed(board.board.port(), place);
    let made = tables.translate(run, &at.key, SpareLists::new(alloc))?;
    keep(&mut board.snaps, place, made)?;
    Ok(true)
}

// A pending frame is decided by the translation that is kept for it, which is given up.
fn settle<C: Case>(
    run: &RunData<C>,
    board: &mut ScheduledBoard<C>,
    place: u32,
) -> Result<bool, AllocError>
    ensures { (newest : ℕ) → IfOk result
        (λ met. Takes C.run newest (given.Settle board.old.board.port place)
        board.old met board.new) }
{
    match give_up(&mut board.snaps, place) {
        Some(made) => {
            let at = run.keyed(board.board.port(), place);
            attempts::settle(&mut board.board, &at, made)
        }
        None => Ok(false),
    }
}

// ---- sweeps

// A sweep of the tables' version begins.
fn sweep<C: Case, T: RunTables<C>>(
    tables: &Tables<C, T>,
    board: &mut ScheduledBoard<C>,
) -> Result<bool, AllocError>
    ensures { IfOk result
        (λ met. Takes C.run tables.now (given.Sweep board.old.board.port)
        board.old met board.new) }
{
    attempts::begin(&mut board.board, tables.version())
}

// The key of an entry that is listed.
fn listed_key<C: Case>(board: &Board<C>, number: u32) -> Option<Key>
    ensures some { IfSome result
        (λ key. (is_among (state_of C.run board.now).listed number ≡ true)
        × (option_map (λ e. e.key) (entry_of number (state_of C.run board.now).entries)
        ≡ Some (numbers key))) }
    ensures none { IfNone result (is_among (state_of C.run board.now).listed number ≡ false) }
{
    let _ = board.journal();
    match board.next_check(number.saturating_sub(1)) {
        Some((found, key)) if found == number => Some(key),
        _ => None,
    }
}

// The key of a listed entry is translated, and the translation is kept.
fn check<C: Case, T: RunTables<C>>(
    alloc: Global,
    run: &RunData<C>,
    tables: &Tables<C, T>,
    board: &mut ScheduledBoard<C>,
    entry: u32,
) -> Result<bool, AllocError>
    ensures { IfOk result
        (λ met. Takes C.run tables.now (given.Check board.old.board.port entry)
        board.old met board.new) }
{
    let _ = board.board.journal();
    match listed_key(&board.board, entry) {
        Some(key) => {
            let made = tables.translate(run, &key, SpareLists::new(alloc))?;
            keep(&mut board.checks, entry, made)?;
            Ok(true)
        }
        None => Ok(false),
    }
}

// A listed entry is revalidated by the translation that is kept for it, which is given up.
fn put<C: Case>(board: &mut ScheduledBoard<C>, entry: u32) -> bool
    ensures { (newest : ℕ)
        → Takes C.run newest (given.Put board.old.board.port entry) board.old result board.new }
{
    let _ = board.board.journal();
    match give_up(&mut board.checks, entry) {
        Some(made) => attempts::put(&mut board.board, entry, made),
        None => false,
    }
}

// The sweep that runs ends.
fn swept<C: Case>(board: &mut ScheduledBoard<C>) -> bool
    ensures { (newest : ℕ)
        → Takes C.run newest (given.Swept board.old.board.port) board.old result board.new }
{
    attempts::end(&mut board.board)
}

// ---- blocks

// The next block is opened.
fn open<C: Case>(run: &RunData<C>, board: &mut ScheduledBoard<C>) -> bool
    ensures { (newest : ℕ)
        → Takes C.run newest (given.Open board.old.board.port) board.old result board.new }
{
    let _ = run.last_block();
    let block = board.board.block();
    attempts::open_block(&mut board.board, block + 1)
}

// ---- all of them

// A given step is carried out at the board of its port.
fn taken<C: Case, T: RunTables<C>>(
    alloc: Global,
    run: &RunData<C>,
    tables: &Tables<C, T>,
    board: &mut ScheduledBoard<C>,
    step: RunStep,
) -> Result<bool, AllocError>
    requires of_port { port_of step ≡ Some board.old.board.port }
    ensures { IfOk result
        (λ met. Takes C.run tables.now step board.old met board.new) }
{
    match step {
        RunStep::Edit => unreachable!(),
        RunStep::Rx { port: _ } => Ok(rx(run, board)),
        RunStep::Snap { port: _, place } => snap(alloc, run, tables, board, place),
        RunStep::Settle { port: _, place } => settle(run, board, place),
        RunStep::Sweep { port: _ } => sweep(tables, board),
        RunStep::Check { port: _, entry } => check(alloc, run, tables, board, entry),
        RunStep::Put { port: _, entry } => Ok(put(board, entry)),
        RunStep::Swept { port: _ } => Ok(swept(board)),
        RunStep::Open { port: _ } => Ok(open(run, board)),
    }
}

/// Carries out a given step at the board of its port, and answers whether it is met. It translates one key at most.
///
/// The only error is out of memory, and then the board is left on the way.
pub fn take_step<C: Case, T: RunTables<C>>(
    alloc: Global,
    run: &RunData<C>,
    tables: &Tables<C, T>,
    board: &mut ScheduledBoard<C>,
    step: &RunStep,
) -> Result<bool, AllocError>
    requires of_port { port_of step.now ≡ Some board.old.board.port }
    ensures met { IfOk result
        (λ met. met ≡ (given_step C.run tables.now step.now (scheduled C.run board.old)).0) }
    ensures taken { OnOk result (by_number (scheduled C.run board.new)
        ≡ by_number (given_step C.run tables.now step.now (scheduled C.run board.old)).1) }
    ensures port { OnOk result (board.new.board.port ≡ board.old.board.port) }
{
    taken(alloc, run, tables, board, *step)
}
