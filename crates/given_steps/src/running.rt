//! Given steps, one after the other, and the whole schedule of a run.
ghost use Rattle.std.specs.Prelude.{◌≡◌, ◌≤◌, IsTrue, IfOk, length, map};
ghost use Rattle.std.specs.List.{list_all};
ghost use Rattle.spec_case.specs.Blocks.{hi};
ghost use Rattle.spec_tables.specs.Edits.{has_sound_actions};
ghost use Rattle.spec_input.specs.Steps.{most_steps};
ghost use Rattle.spec_board.specs.GivenSteps.{with_given_steps};
ghost use Rattle.spec_board.specs.Scheduled as whole_runs;
ghost use Rattle.spec_run.specs.Journals.{AreJournals};
ghost use Rattle.run_boards.specs.Scheduled.{block_to_finish, schedule_of, under_way};
ghost use Rattle.given_steps.specs.Running.{without_kept};

use crate::schedule::{boards_after, scheduled_boards, take_given};
use run_boards::{Boards, Finished};
use run_case::{Case, RunData};
use spec_case::RunStep;
use spec_run::Ran;
use std::alloc::{AllocError, Global};
use step_runner::finish;
use table_versions::{RunTables, Tables};

/// Carries out given steps on the boards of a run, one after the other, and answers the boards, how many steps there were
/// and how many of them were not met. One that isn't met is passed over. Translations that are kept at the end are given
/// up.
///
/// It takes memory; where there is none, the boards are given up, and the tables are left on the way.
pub fn run_steps<C: Case, T: RunTables<C>>(
    alloc: Global,
    run: &RunData<C>,
    boards: Boards<C>,
    tables: &mut Tables<C, T>,
    steps: &[RunStep],
) -> Result<(Boards<C>, Ran), AllocError>
    requires few { length steps.now ≤ most_steps }
    requires version { tables.old ≤ hi C.run (block_to_finish C.run boards) }
    ensures boards { IfOk result (λ r. map (under_way C.run) r.0 ≡ map without_kept
        (with_given_steps C.run steps.now (schedule_of C.run tables.old boards)).boards) }
    ensures newest { IfOk result (λ r. tables.new
        ≡ (with_given_steps C.run steps.now (schedule_of C.run tables.old boards)).newest) }
    ensures version { IfOk result (λ r. tables.new ≤ hi C.run (block_to_finish C.run r.0)) }
    ensures unmet { IfOk result (λ r. r.1.unmet
        ≡ (with_given_steps C.run steps.now (schedule_of C.run tables.old boards)).unmet) }
    ensures steps { IfOk result (λ r. r.1.steps ≡ length steps.now) }
{
    let mut list = scheduled_boards(alloc, boards)?;
    let mut unmet = 0;
    'steps: for step in steps {
        let met = take_given(alloc, run, tables, &mut list, step)?;
        if !met {
            unmet += 1;
        }
    }
    let left = boards_after(alloc, run, list)?;
    let ran = Ran {
        steps: steps.len() as u32,
        unmet,
    };
    Ok((left, ran))
}

/// Carries out the whole schedule of a run: its given steps, on new boards, and then the end of every run. The journals are
/// those of the schedule; where no steps are given, each frame is decided under the last version of its block.
///
/// It takes memory for the boards, the tables, kept translations and the arrivals of all frames; there may be none.
pub fn run_schedule<C: Case, T: RunTables<C>>(
    alloc: Global,
    run: &RunData<C>,
    store: T::Store,
    flow_limit: u32,
    steps: &[RunStep],
) -> Result<(Finished<C>, Ran), AllocError>
    requires sound { IsTrue (list_all has_sound_actions C.run.edits) }
    requires limit { flow_limit ≡ C.run.flow_limit }
    requires steps { steps.now ≡ C.run.steps }
    requires few { length steps.now ≤ most_steps }
    ensures journals { IfOk result (λ r. AreJournals 0 C.run r.0) }
    ensures steps { IfOk result (λ r. r.1.steps ≡ length C.run.steps) }
    ensures unmet { IfOk result (λ r. r.1.unmet ≡ (whole_runs.scheduled C.run).unmet) }
{
    let boards = Boards::new(alloc, run, flow_limit)?;
    let mut tables = Tables::<C, T>::new(alloc, store);
    let (left, ran) = run_steps(alloc, run, boards, &mut tables, steps)?;
    // There is one board for each port, with the run's flow limit.
    let _ = left.as_slice();
    let done = finish(alloc, run, left, &mut tables)?;
    // The journals are whole.
    let _ = done.boards();
    Ok((done, ran))
}
