ghost use Rattle.std.specs.Prelude.{◌≡◌, ℕ, List};
ghost use Rattle.spec_run.specs.Rules.{counts_of};
ghost use Rattle.spec_run.specs.Journals.{actions_for};
ghost use Rattle.spec_run.specs.Outputs.{frames_out, port_file, rules_file};
ghost use Rattle.board_laws.specs.Runs.{OfLastVersions, OfEditsApart};

/// Where two lists of whole journals decide each frame under the last version of its block, they decide the same actions
/// for it, send the same frames out at each port, and come to the same packets and bytes of each rule. So the files of
/// the ports and the dump of the rules are the same.
pub fn last_versions_give_one_answer()
    ensures actions { OfLastVersions (λ run a b. (port place : ℕ)
        → actions_for run a port place ≡ actions_for run b port place) }
    ensures frames { OfLastVersions (λ run a b. (port : ℕ)
        → frames_out run a port ≡ frames_out run b port) }
    ensures port_files { OfLastVersions (λ run a b. (out : List ℕ) (port : ℕ)
        → port_file out run a port ≡ port_file out run b port) }
    ensures counts { OfLastVersions (λ run a b. (rule : ℕ) → counts_of run a rule ≡ counts_of run b rule) }
    ensures rules { OfLastVersions (λ run a b. (out : List ℕ) → rules_file out run a ≡ rules_file out run b) }
{}

/// Where no block has both edits and frames, any two lists of whole journals do.
pub fn edits_apart_give_one_answer()
    ensures actions { OfEditsApart (λ run a b. (port place : ℕ)
        → actions_for run a port place ≡ actions_for run b port place) }
    ensures frames { OfEditsApart (λ run a b. (port : ℕ)
        → frames_out run a port ≡ frames_out run b port) }
    ensures port_files { OfEditsApart (λ run a b. (out : List ℕ) (port : ℕ)
        → port_file out run a port ≡ port_file out run b port) }
    ensures counts { OfEditsApart (λ run a b. (rule : ℕ) → counts_of run a rule ≡ counts_of run b rule) }
    ensures rules { OfEditsApart (λ run a b. (out : List ℕ) → rules_file out run a ≡ rules_file out run b) }
{}
