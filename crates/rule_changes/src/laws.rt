//! A law of what the same rules do, as the contract of a function that does nothing.
ghost use Rattle.std.specs.Prelude.{◌≡◌, ℕ, List};
ghost use Rattle.spec_xlate.specs.Translation.{Switch};
ghost use Rattle.spec_tools.specs.Classes.{done};
ghost use Rattle.rule_changes.specs.Lockstep.{FindAlike, KeepAll};

/// Two switches do the same to a frame, where each of their lookups finds rules of the same actions, or none, for
/// every key that has what the frame's key has of some bits, and the rules that are found leave these bits.
pub fn same_rules_do_the_same()
    ensures { (o n : Switch) (kept key : List ℕ)
        → n.ports ≡ o.ports → FindAlike o n kept key → KeepAll o kept
        → done o key ≡ done n key }
{}
