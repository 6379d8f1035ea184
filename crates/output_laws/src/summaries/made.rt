ghost use Rattle.std.specs.Prelude.{◌≡◌, ℕ, ◌++◌, List, Some, Ok};
ghost use Rattle.spec_input.specs.Words.{Made};
ghost use Rattle.spec_run.specs.Verdict.{Files, Accepted, Sources, files_for, sources_of, verdict};
ghost use Rattle.spec_run.specs.Journals.{HasEditsApart};
ghost use Rattle.output_laws.specs.Made.{last_sync, OfRunIn};

/// Where the last line of the edits is `sync 0`, no block has both edits and frames. That is the last line of the
/// edits that a number makes.
pub fn made_runs_have_edits_apart()
    ensures file { (files : Files) (flow_limit : ℕ) (sources : Sources) (text : List ℕ)
        → files sources.edits ≡ Some (text ++ last_sync)
        → OfRunIn files flow_limit sources HasEditsApart }
    ensures number { (number : ℕ) (files : Files) (flow_limit : ℕ)
        → OfRunIn (files_for files (Made number)) flow_limit (sources_of (Made number)) HasEditsApart }
    ensures words { (words : List (List ℕ)) (files : Files) (accepted : Accepted) (number : ℕ)
        → verdict words files ≡ Ok accepted → accepted.command.input ≡ Made number
        → HasEditsApart accepted.run }
{}
