ghost use Rattle.std.specs.Prelude.{◌≡◌, None, IsTrue, IfErr};
ghost use Rattle.std.specs.List.{list_all};
ghost use Rattle.spec_tables.specs.Edits.{has_sound_actions};
ghost use Rattle.spec_run.specs.Outputs.{output_of};
ghost use Rattle.spec_run.specs.Summary.{summary};
ghost use Rattle.rule_tables.specs.History.{history_of};
ghost use Rattle.edge_io.specs.declared.outside.InUse.TheVariants.{Nothing};
ghost use Rattle.switch_output.specs.OutletViews.{outlets_in};
ghost use Rattle.switch_output.specs.Put.{NamesNoFile, PutsOut};

use crate::outlets::Outlets;
use crate::refusal::OutputRefusal;
use crate::writing::write_out;
use edge_io::{Shelf, Sink};
use flow_dump::say_summary;
use rule_tables::VersionedRules;
use run_boards::Finished;
use run_case::{Case, RunData};
use spec_run::Ran;
use std::alloc::Global;

/// Tells what became of a run: its files are written, where it has outlets, and then its summary is printed, with what is
/// told of given steps.
///
/// Beside what the files take, it takes memory for the text of the summary.
pub fn put_out<C: Case, S: Shelf, K: Sink>(
    alloc: Global,
    shelf: &mut S,
    say: &mut K,
    outlets: Option<Outlets<'_>>,
    run: &RunData<C>,
    rules: &VersionedRules,
    finished: &Finished<C>,
    ran: Option<Ran>,
) -> Result<(), OutputRefusal>
    requires in_use { S.in_use shelf.old ≡ Nothing }
    requires edits { rules.now ≡ history_of C.run.edits C.run.bundles }
    requires sound { IsTrue (list_all has_sound_actions C.run.edits) }
    ensures told { let files = output_of (outlets_in outlets.entry) C.run finished.now in
        PutsOut S.Shelf K.Sink shelf.old shelf.new say.old say.new files
        (summary C.run finished.now ran) result }

    // Where it has none, the shelf isn't touched.
    ensures untouched { outlets_in outlets.entry ≡ None → (shelf.new ≡ shelf.old) × IfErr result NamesNoFile }
{
    write_out(alloc, shelf, outlets, run, rules, finished)?;
    say_summary(alloc, say, run, finished, ran)?;
    Ok(())
}
