//! The end of a phase of workers.
ghost use Rattle.std.specs.Prelude.{◌≡◌, ◌≤◌, IsTrue, IfOk, MatchBool, map};
ghost use Rattle.std.specs.List.{list_all};
ghost use Rattle.spec_case.specs.Blocks.{hi, last_block};
ghost use Rattle.spec_board.specs.Schedules as schedules;
ghost use Rattle.spec_tables.specs.Edits.{has_sound_actions};
ghost use Rattle.run_boards.specs.Scheduled.{under_way};
ghost use Rattle.run_boards.specs.Boards.{AreOfPhase};
ghost use Rattle.run_boards.specs.Finished.{AreFinished};
ghost use Rattle.step_runner.specs.Closing.{ClosesBy};

use crate::finishing::{finish_blocks, finish_least_block};
use pmd_board::Board;
use run_boards::Boards;
use run_case::{Case, RunData};
use std::alloc::{AllocError, Global};
use table_versions::{RunTables, Tables};

// All blocks are finished from new boards, by new tables.
fn finish_new<C: Case, T: RunTables<C>>(
    alloc: Global,
    run: &RunData<C>,
    boards: Boards<C>,
    tables: &mut Tables<C, T>,
) -> Result<Boards<C>, AllocError>
    requires version { tables.old ≡ 0 }
    requires scheduled { map (under_way C.run) boards ≡ (schedules.new_schedule C.run).boards }
    ensures finished { IfOk result (AreFinished C.run) }
    ensures scheduled { IfOk result (λ left. map (under_way C.run) left
        ≡ (schedules.finish C.run (schedules.new_schedule C.run)).boards) }
{
    let left = finish_blocks(alloc, run, boards, tables)?;
    Ok(left)
}

// All blocks are finished from new boards, by tables of its own.
fn start_over<C: Case, T: RunTables<C>>(
    alloc: Global,
    run: &RunData<C>,
    store: T::Store,
    flow_limit: u32,
) -> Result<Boards<C>, AllocError>
    requires sound { IsTrue (list_all has_sound_actions C.run.edits) }
    requires limit { flow_limit ≡ C.run.flow_limit }
    ensures finished { IfOk result (AreFinished C.run) }
    ensures scheduled { IfOk result (λ left. map (under_way C.run) left
        ≡ (schedules.finish C.run (schedules.new_schedule C.run)).boards) }
{
    let boards = Boards::new(alloc, run, flow_limit)?;
    // The tables are lent to what can fail: a proof goes through the drop of what is owned at each end.
    let mut tables = Tables::<C, T>::new(alloc, store);
    let left = finish_new(alloc, run, boards, &mut tables);
    drop(tables);
    left
}

/// Ends a phase of workers: the boards that they leave finish the phase's block. It answers the boards, and whether those
/// that were handed in did so.
///
/// They do so exactly where they fit: there is one for each port, in the order of the words, each with this flow limit and
/// in this block. Then they are finished by these tables. Where they don't fit, they are thrown away, and the whole run is
/// finished from new boards, by tables of its own. It asks nothing of the boards but what their types say, so that what is
/// left is right whoever had them.
///
/// It takes memory; where there is none, the boards are given up.
pub fn close_phase<C: Case, T: RunTables<C>>(
    alloc: Global,
    run: &RunData<C>,
    store: T::Store,
    boards: Vec<Board<C>>,
    tables: &Tables<C, T>,
    block: u32,
    flow_limit: u32,
) -> Result<(Boards<C>, bool), AllocError>
    requires sound { IsTrue (list_all has_sound_actions C.run.edits) }
    requires limit { flow_limit ≡ C.run.flow_limit }
    requires there { block ≤ last_block C.run }
    requires version { tables.now ≡ hi C.run block }

    // It is true exactly where the boards fit.
    ensures fit { IfOk result (λ r. let fits = AreOfPhase C.run flow_limit block boards.items in
        MatchBool r.1 fits (fits → ⊥)) }

    // Then these very boards finish their block; else all blocks are finished from new boards.
    ensures closed { IfOk result (λ r. ClosesBy C.run tables.now boards.items r.1 r.0) }
    ensures finished { IfOk result (λ r. MatchBool r.1
        (block ≡ last_block C.run → AreFinished C.run r.0) (AreFinished C.run r.0)) }
{
    let _ = run.ports().len();
    let _ = run.last_block();
    match Boards::of_phase(run, boards, block, flow_limit) {
        Some(fitting) => {
            let left = finish_least_block(alloc, run, fitting, tables, block)?;
            Ok((left, true))
        }
        None => {
            let left = start_over::<C, T>(alloc, run, store, flow_limit)?;
            Ok((left, false))
        }
    }
}
