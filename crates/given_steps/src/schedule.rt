//! Given steps of all boards of a run.
ghost use Rattle.std.specs.Prelude.{◌≡◌, ◌+◌, ◌≤◌, ℕ, All, map, nat_lt, Some, if◌then◌else◌, IfOk, OnOk};
ghost use Rattle.spec_case.specs.Blocks.{hi, last_block};
ghost use Rattle.spec_board.specs.GivenSteps.{is_met_at, port_of};
ghost use Rattle.run_boards.specs.Scheduled.{under_way};
ghost use Rattle.given_steps.specs.ScheduledViews.{scheduled};
ghost use Rattle.given_steps.specs.ByNumber.{by_number};
ghost use Rattle.given_steps.specs.Running.{AreOfPorts, TakesGiven, block_of_all, board_of, stepped_at, without_kept};

use crate::scheduled_board::ScheduledBoard;
use crate::steps::take_step;
use pmd_board::Board;
use run_boards::Boards;
use run_case::{Case, RunData};
use spec_case::RunStep;
use std::alloc::{AllocError, Global};
use table_versions::{RunTables, Tables};

// ---- boards that begin and end

/// The boards of a run, for none of which a translation is kept.
pub(crate) fn scheduled_boards<C: Case>(
    alloc: Global,
    boards: Boards<C>,
) -> Result<Vec<ScheduledBoard<C>>, AllocError>
    ensures ports { IfOk result (λ list. AreOfPorts C.run list.items) }
    ensures same { IfOk result
        (λ list. map (scheduled C.run) list.items ≡ map (under_way C.run) boards) }
{
    let boards = boards.into_vec();
    let mut list = Vec::new(alloc);
    'boards: for board in boards {
        list.push(ScheduledBoard::new(alloc, board))?;
    }
    Ok(list)
}

// The boards of a list. Translations that are kept for them are given up.
fn boards_in<C: Case>(
    alloc: Global,
    list: Vec<ScheduledBoard<C>>,
) -> Result<Vec<Board<C>>, AllocError>
    ensures same { IfOk result (λ boards. boards.items ≡ map (λ b. b.board) list.items) }
    ensures limits { IfOk result (λ boards. All (λ b. b.flow_limit ≡ C.run.flow_limit) boards.items) }
{
    let mut boards = Vec::new(alloc);
    'boards: for board in list {
        boards.push(board.into_board())?;
    }
    Ok(boards)
}

/// The boards of a run after given steps. Translations that are kept for them are given up.
pub(crate) fn boards_after<C: Case>(
    alloc: Global,
    run: &RunData<C>,
    list: Vec<ScheduledBoard<C>>,
) -> Result<Boards<C>, AllocError>
    requires { AreOfPorts C.run list.items }
    ensures { IfOk result (λ boards.
        map (under_way C.run) boards ≡ map without_kept (map (scheduled C.run) list.items)) }
{
    let _ = run.ports().len();
    let boards = boards_in(alloc, list)?;
    let flow_limit = boards[0].flow_limit();
    match Boards::of(run, boards, flow_limit) {
        Some(boards) => Ok(boards),
        None => unreachable!(),
    }
}

// ---- one step

// The port of a given step, if it is a step of one.
fn port_in(step: &RunStep) -> Option<u16>
    ensures { result ≡ port_of step.now }
{
    match *step {
        RunStep::Edit => None,
        RunStep::Rx { port }
        | RunStep::Snap { port, .. }
        | RunStep::Settle { port, .. }
        | RunStep::Sweep { port }
        | RunStep::Check { port, .. }
        | RunStep::Put { port, .. }
        | RunStep::Swept { port }
        | RunStep::Open { port } => Some(port),
    }
}

// The least block that a board is in.
fn least_block<C: Case>(run: &RunData<C>, boards: &[ScheduledBoard<C>]) -> u32
    ensures least { result ≡ block_of_all C.run boards.now }
    ensures there { result ≤ last_block C.run }
{
    let mut least = run.last_block();
    'boards: for board in boards {
        least = least.min(board.block());
    }
    least
}

// Goes on to the next version, if one of the least block of the boards is left, and answers whether it did.
fn publish<C: Case, T: RunTables<C>>(
    run: &RunData<C>,
    boards: &[ScheduledBoard<C>],
    tables: &mut Tables<C, T>,
) -> Result<bool, AllocError>
    ensures met { IfOk result
        (λ met. met ≡ nat_lt tables.old (hi C.run (block_of_all C.run boards.now))) }
    ensures published { IfOk result
        (λ met. tables.new ≡ (if met then tables.old + 1 else tables.old)) }
{
    if tables.version() < run.hi(least_block(run, boards)) {
        tables.advance()?;
        return Ok(true);
    }
    Ok(false)
}

// Carries out a given step of a port, and answers whether it is met. Where the port isn't one of the run's it isn't.
fn take_port_step<C: Case, T: RunTables<C>>(
    alloc: Global,
    run: &RunData<C>,
    tables: &Tables<C, T>,
    boards: &mut Vec<ScheduledBoard<C>>,
    port: u16,
    step: &RunStep,
) -> Result<bool, AllocError>
    requires ports { AreOfPorts C.run boards.old.items }
    requires of_port { port_of step.now ≡ Some port }
    ensures met { IfOk result (λ met. met
        ≡ is_met_at C.run tables.now step.now (board_of port (map (scheduled C.run) boards.old.items))) }
    ensures taken { OnOk result (map by_number (map (scheduled C.run) boards.new.items)
        ≡ map by_number (map (stepped_at C.run tables.now step.now port)
        (map (scheduled C.run) boards.old.items))) }
    ensures ports { OnOk result (AreOfPorts C.run boards.new.items) }
{
    let _ = run.ports().len();
    match run.ports().find(port) {
        Some(place) => {
            let met = take_step(alloc, run, tables, &mut boards[place as usize], step)?;
            Ok(met)
        }
        None => Ok(false),
    }
}

/// Carries out a given step, and answers whether it is met.
///
/// It takes memory; where there is none, boards and tables are left on the way.
pub(crate) fn take_given<C: Case, T: RunTables<C>>(
    alloc: Global,
    run: &RunData<C>,
    tables: &mut Tables<C, T>,
    boards: &mut Vec<ScheduledBoard<C>>,
    step: &RunStep,
) -> Result<bool, AllocError>
    requires ports { AreOfPorts C.run boards.old.items }
    requires version { tables.old ≤ hi C.run (block_of_all C.run boards.old.items) }
    ensures ports { OnOk result (AreOfPorts C.run boards.new.items) }
    ensures version { OnOk result (tables.new ≤ hi C.run (block_of_all C.run boards.new.items)) }
    ensures taken { IfOk result (λ met. TakesGiven C.run step.now
        tables.old boards.old.items met tables.new boards.new.items) }
{
    let _ = run.last_block();
    match port_in(step) {
        None => Ok(publish(run, boards, tables)?),
        Some(port) => Ok(take_port_step(alloc, run, tables, boards, port, step)?),
    }
}
