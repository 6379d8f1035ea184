ghost use Rattle.std.specs.Prelude.{◌≡◌, ◌≤◌, length, IsTrue, IfOk};
ghost use Rattle.std.specs.List.{list_all};
ghost use Rattle.spec_tables.specs.Edits.{has_sound_actions};
ghost use Rattle.spec_input.specs.Steps.{most_steps};
ghost use Rattle.spec_board.specs.Scheduled as whole_runs;
ghost use Rattle.spec_run.specs.Journals.{AreJournals};
ghost use Rattle.spec_input.specs.Words.{most_workers};

use edge_io::Gate;
use run_boards::Finished;
use run_case::{Case, RunData};
use run_tables::ClassifierTables;
use spec_case::RunStep;
use spec_run::Ran;
use std::alloc::{AllocError, Global};
use std::sync::Wait;
use std::thread::Threads;
use table_versions::rules::RunRules;

/// Carries out the whole schedule of a run: its given steps, on new boards, and then the end of every run. The journals are
/// those of the schedule. It answers how many steps were given, and how many of them weren't met.
///
/// The only error is out of memory.
pub fn run_schedule<C: Case + Send + Sync>(
    alloc: Global,
    run: &RunData<C>,
    rules: &RunRules<C>,
    flow_limit: u32,
    steps: &[RunStep],
) -> Result<(Finished<C>, Ran), AllocError>
    requires sound { IsTrue (list_all has_sound_actions C.run.edits) }
    requires limit { flow_limit ≡ C.run.flow_limit }
    requires steps { steps.now ≡ C.run.steps }
    requires few { length steps.now ≤ most_steps }
    ensures journals { IfOk result (λ r. AreJournals 0 C.run r.0) }
    ensures steps { IfOk result (λ r. r.1.steps ≡ length C.run.steps) }
    ensures unmet { IfOk result (λ r. r.1.unmet ≡ (whole_runs.scheduled C.run).unmet) }
{
    given_steps::run_schedule::<C, ClassifierTables<'_, C>>(alloc, run, rules, flow_limit, steps)
}

/// Decides all frames of a run by workers, so many of each kind, from 1 to 16. Which steps are taken is up to their threads;
/// what is so of finished boards is so of these. The gate is told of points at which tests hold threads.
///
/// By its bounds the call may wait. The only error is out of memory.
pub fn decide_by_workers<C: Case + Send + Sync, R: Threads + Wait + Sync, G: Gate + Sync>(
    rt: &R,
    alloc: Global,
    run: &RunData<C>,
    rules: &RunRules<C>,
    flow_limit: u32,
    workers: u8,
    gate: &G,
) -> Result<Finished<C>, AllocError>
    requires sound { IsTrue (list_all has_sound_actions C.run.edits) }
    requires limit { flow_limit ≡ C.run.flow_limit }
    requires workers { (1 ≤ workers) × (workers ≤ most_workers) }
{
    worker_run::decide_by_workers::<C, ClassifierTables<'_, C>, R, G>(
        rt, alloc, run, rules, flow_limit, workers, gate,
    )
}
