//! Whether two rules are the same but for their numbers and cookies.
ghost use Rattle.std.specs.Prelude.{◌≡◌, true};
ghost use Rattle.rule_tables.specs.Views.{match_view};

use rule_tables::{Match, OfAction};
use spec_actions::Slice;

/// Whether two slices are the same.
fn is_same_slice(a: Slice, b: Slice) -> bool
    ensures { result ≡ true → a ≡ b }
{
    (a.name == b.name) & ((a.low == b.low) & (a.high == b.high))
}

/// Whether two actions are the same.
fn is_same_action(a: OfAction, b: OfAction) -> bool
    ensures { result ≡ true → a ≡ b }
{
    match (a, b) {
        (OfAction::Output(m), OfAction::Output(n)) => m == n,
        (OfAction::OutputField(m), OfAction::OutputField(n)) => is_same_slice(m, n),
        (OfAction::InPort, OfAction::InPort) => true,
        (OfAction::All, OfAction::All) => true,
        (OfAction::Flood, OfAction::Flood) => true,
        (OfAction::Resubmit(m), OfAction::Resubmit(n)) => m == n,
        (OfAction::Goto(m), OfAction::Goto(n)) => m == n,
        (
            OfAction::Set { name, value, mask },
            OfAction::Set {
                name: other_name,
                value: other_value,
                mask: other_mask,
            },
        ) => (name == other_name) & ((value == other_value) & (mask == other_mask)),
        (
            OfAction::Move { from, to },
            OfAction::Move {
                from: other_from,
                to: other_to,
            },
        ) => is_same_slice(from, other_from) & is_same_slice(to, other_to),
        (OfAction::DecTtl, OfAction::DecTtl) => true,
        (OfAction::PushVlan(m), OfAction::PushVlan(n)) => m == n,
        (OfAction::PopVlan, OfAction::PopVlan) => true,
        (OfAction::SetVid(m), OfAction::SetVid(n)) => m == n,
        (OfAction::SetPcp(m), OfAction::SetPcp(n)) => m == n,
        _ => false,
    }
}

/// Whether two lists of actions are the same.
pub fn are_same_actions(a: &[OfAction], b: &[OfAction]) -> bool
    ensures { result ≡ true → a.now ≡ b.now }
{
    if a.len() != b.len() {
        return false;
    }
    'places: for i in 0..a.len() {
        if !is_same_action(a[i], b[i]) {
            return false;
        }
    }
    true
}

/// Whether two matches are the same.
pub(crate) fn is_same_match(a: &Match, b: &Match) -> bool
    ensures { result ≡ true → match_view a.now ≡ match_view b.now }
{
    (a.key == b.key) & (a.mask == b.mask)
}
