ghost use Rattle.std.specs.Prelude.{◌≡◌, IsTrue};
ghost use Rattle.spec_flow_text.specs.Printed.{match_printed, actions_printed};
ghost use Rattle.text_laws.specs.Spelled.{are_respellable};
ghost use Rattle.text_laws.specs.ReadTexts.{OfReadMatches, OfReadActions};

use crate::round_trips::{read_actions_read_back, read_match_reads_back};

/// Matches that were read print alike exactly where they are the same: of each there is one print, and no two share one.
pub fn prints_tell_matches_apart()
    ensures alike { OfReadMatches (λ m n. m ≡ n → match_printed m ≡ match_printed n) }
    ensures apart { OfReadMatches (λ m n. match_printed m ≡ match_printed n → m ≡ n) }
{
    read_match_reads_back();
}

/// So do lists of actions whose writes can be spelled again.
pub fn prints_tell_actions_apart()
    ensures alike { OfReadActions (λ actions others.
        actions ≡ others → actions_printed actions ≡ actions_printed others) }
    ensures apart { OfReadActions (λ actions others.
        IsTrue (are_respellable actions) → IsTrue (are_respellable others)
        → actions_printed actions ≡ actions_printed others → actions ≡ others) }
{
    read_actions_read_back();
}
