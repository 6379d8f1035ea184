ghost use Rattle.std.specs.Prelude.{◌≡◌, None, IfSome, IfNone};
ghost use Rattle.spec_tables.specs.Live.{rule_numbered};
ghost use Rattle.dump_lines.specs.Live.{IsOfEdits, live_in};
ghost use Rattle.rule_changes.specs.Live.{IsLiveRule};

use rule_tables::{OfAction, Rule, VersionedRules};

/// A rule that is live in the last version, with the actions that it has there.
#[derive(Clone, Copy)]
pub(crate) struct LiveRule<'a> {
    pub(crate) rule: &'a Rule,
    pub(crate) actions: &'a [OfAction],
}

/// The live rule of a number.
pub(crate) fn live_rule(rules: &VersionedRules, number: u32) -> Option<LiveRule<'_>>
    requires { IsOfEdits rules.now }
    ensures some { IfSome result (λ l. IsLiveRule rules.now number l.rule.now l.actions.now) }
    ensures none { IfNone result (rule_numbered number (live_in rules.now) ≡ None) }
{
    let version = rules.version();
    if !rules.live(version, number) {
        return None;
    }
    match rules.rule(number) {
        Some(rule) => Some(LiveRule {
            rule,
            actions: rules.actions(version, number),
        }),
        None => unreachable!(),
    }
}
