ghost use Rattle.std.specs.Prelude.{ℕ, List};
ghost use Rattle.spec_keys.specs.Keys.{IsKey};
ghost use Rattle.spec_xlate.specs.Commit.{commit};
ghost use Rattle.spec_xlate.specs.Translation.{Switch, pipe};
ghost use Rattle.spec_flow_text.specs.Within.{AreWithinFields};

/// The actions that commit gives for two keys write only numbers that their fields can hold.
pub fn commit_is_within_fields()
    ensures { (base current : List ℕ)
        → IsKey base → IsKey current → AreWithinFields (commit base current) }
{}

/// So do the actions of every translation, whatever the rules are.
pub fn translation_is_within_fields()
    ensures { (sw : Switch) (key : List ℕ) → IsKey key → AreWithinFields (pipe sw key).actions }
{}
