//! A run, carried out several times.
ghost use Rattle.std.specs.Prelude.{◌≡◌, ◌≤◌, IsTrue, length};
ghost use Rattle.std.specs.List.{list_all};
ghost use Rattle.spec_input.specs.Steps.{most_steps};
ghost use Rattle.spec_tables.specs.Edits.{has_sound_actions};
ghost use Rattle.switch_input.specs.InputViews.{run_view, IsWithinLimits};

use crate::runs::counts::Counts;
use crate::runs::words::Command;
use given_steps::run_schedule;
use run_case::{Case, RunData};
use run_tables::ClassifierTables;
use spec_case::RunStep;
use std::alloc::{AllocError, Global};
use std::marker::Brand;
use switch_input::Inputs;
use table_versions::rules::RunRules;

/// Carries a run out once more, and adds what becomes of its frames.
fn add_round<C: Case + Send + Sync>(
    alloc: Global,
    run: &RunData<C>,
    rules: &RunRules<C>,
    flow_limit: u32,
    steps: &[RunStep],
    counts: &mut Counts,
) -> Result<(), AllocError>
    requires sound { IsTrue (list_all has_sound_actions C.run.edits) }
    requires limit { flow_limit ≡ C.run.flow_limit }
    requires steps { steps.now ≡ C.run.steps }
    requires few { length steps.now ≤ most_steps }
{
    let (finished, _) = run_schedule::<C, ClassifierTables<'_, C>>(
        alloc, run, rules, flow_limit, steps,
    )?;
    for board in finished.boards() {
        counts.add_board(run, board);
    }
    drop(finished);
    Ok(())
}

/// What becomes of the frames of a run, in so many rounds together.
fn add_rounds<C: Case + Send + Sync>(
    alloc: Global,
    run: &RunData<C>,
    rules: &RunRules<C>,
    flow_limit: u32,
    steps: &[RunStep],
    rounds: u32,
) -> Result<Counts, AllocError>
    requires sound { IsTrue (list_all has_sound_actions C.run.edits) }
    requires limit { flow_limit ≡ C.run.flow_limit }
    requires steps { steps.now ≡ C.run.steps }
    requires few { length steps.now ≤ most_steps }
{
    let mut counts = Counts::new();
    'rounds: for _ in 0..rounds {
        add_round(alloc, run, rules, flow_limit, steps, &mut counts)?;
    }
    Ok(counts)
}

/// What becomes of the frames of a run, in so many rounds together, where there was memory for the run.
fn counts_of_run<C: Case + Send + Sync>(
    alloc: Global,
    made: Result<RunData<C>, AllocError>,
    rules: &RunRules<C>,
    flow_limit: u32,
    steps: &[RunStep],
    rounds: u32,
) -> Result<Counts, AllocError>
    requires sound { IsTrue (list_all has_sound_actions C.run.edits) }
    requires limit { flow_limit ≡ C.run.flow_limit }
    requires steps { steps.now ≡ C.run.steps }
    requires few { length steps.now ≤ most_steps }
{
    let run = made?;
    let counts = add_rounds(alloc, &run, rules, flow_limit, steps, rounds);
    drop(run);
    counts
}

/// What becomes of the frames of a run under a name, in so many rounds together.
fn counts_in_rounds<C: Case + Send + Sync>(
    alloc: Global,
    inputs: Inputs<'_>,
    flow_limit: u32,
    rounds: u32,
) -> Result<Counts, AllocError>
    requires run { C.run ≡ record (run_view inputs) { flow_limit = flow_limit } }
    requires within { IsWithinLimits inputs }
{
    let Inputs {
        ports,
        script,
        rules,
        steps,
        traces,
        ..
    } = inputs;
    let rules = RunRules::<C>::new(rules);
    let made = RunData::<C>::new(
        alloc,
        ports,
        rules.edits(),
        rules.versions(),
        script.syncs,
        traces,
    );
    let counts = counts_of_run(alloc, made, &rules, flow_limit, &steps, rounds);
    drop(rules);
    counts
}

/// What becomes of the frames of a command, in all of its rounds together.
pub fn counts_of(alloc: Global, command: Command<'_>) -> Result<Counts, AllocError>
    requires { IsWithinLimits command.inputs }
{
    counts_in_rounds::<Brand>(alloc, command.inputs, command.flow_limit, command.rounds)
}
