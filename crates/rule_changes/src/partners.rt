//! Which rule of the new version may be a rule of the old one. Whether it is gets tested, so nothing is proved of the
//! choice.
ghost use Rattle.dump_lines.specs.Live.{IsOfEdits};

use crate::live_rule::live_rule;
use rule_tables::{Match, Rule, VersionedRules};
use std::alloc::{AllocError, Global};
use std::collections::HashMap;

/// What a rule is told apart by.
#[derive(Clone, Copy, PartialEq, Eq, Hash)]
pub(crate) struct Identity {
    table: u8,
    priority: u16,
    matching: Match,
}

/// The numbers of the live rules.
pub(crate) type Partners = HashMap<Identity, u32>;

/// What a rule is told apart by.
fn identity_of(rule: &Rule) -> Identity {
    Identity {
        table: rule.table,
        priority: rule.priority,
        matching: rule.matching,
    }
}

/// The live rules of the last version.
pub(crate) fn partners(alloc: Global, rules: &VersionedRules) -> Result<Partners, AllocError>
    requires { IsOfEdits rules.now }
{
    let mut numbers = HashMap::new(alloc);
    'numbers: for before in 0..rules.edits() {
        let number = before + 1;
        if let Some(found) = live_rule(rules, number) {
            numbers.insert(identity_of(found.rule), number)?;
        }
    }
    Ok(numbers)
}

/// The number of the rule that may be a rule.
pub(crate) fn partner_of(numbers: &Partners, rule: &Rule) -> Option<u32> {
    numbers.get(&identity_of(rule)).copied()
}
