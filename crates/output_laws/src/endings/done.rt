ghost use Rattle.spec_run.specs.Journals.{HasEditsApart};
ghost use Rattle.spec_run.specs.Outputs.{has_steps, ran_of};
ghost use Rattle.output_laws.specs.Printed.{PrintsSums, PrintsPlainly, PrintsMade};
ghost use Rattle.output_laws.specs.Calls.{OfDoneRuns, OfMadeRuns};

use edge_io::{Shelf, Sink};

/// The summary of a run that is done is that of the run, and its counts add up. Where no block has both edits and frames,
/// the frames that are sent and dropped are numbers of the run.
pub fn done_runs_print_their_sums<S: Shelf, K: Sink>()
    ensures sums { OfDoneRuns S.Shelf K.Sink (λ a said saying.
        PrintsSums a.run (ran_of (has_steps a.command.input) a.run) said saying) }
    ensures edits_apart { OfDoneRuns S.Shelf K.Sink (λ a said saying. HasEditsApart a.run
        → PrintsPlainly a.run (ran_of (has_steps a.command.input) a.run) said saying) }
{}

/// The summary of what a number makes has frames, sent and dropped by the number alone, with any number of workers and any
/// shelf.
pub fn made_runs_print_alike<S: Shelf, K: Sink>()
    ensures { OfMadeRuns S.Shelf K.Sink (λ number flow_limit said saying.
        PrintsMade number flow_limit said saying) }
{}
