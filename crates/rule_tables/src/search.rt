ghost use Rattle.std.specs.Prelude.{◌≡◌, ℕ, List, Option, Some, None, IfSome, true, slice_get};
ghost use Rattle.std.specs.Option.{option_map};
ghost use Rattle.spec_tables.specs.Rules.{is_beaten, better, rules_in, winner};
ghost use Rattle.spec_tables.specs.Live.{rule_numbered};
ghost use Rattle.ovs_fields.specs.Packed.{numbers};
ghost use Rattle.rule_tables.specs.declared.stored.Modification.{Modification};
ghost use Rattle.rule_tables.specs.Candidates.{is_candidate};
ghost use Rattle.rule_tables.specs.Ends.{IsBetween};
ghost use Rattle.rule_tables.specs.Stored.{stored_in, stored_numbered, rules_at, is_alive, AreInOrder};

use crate::stored::StoredRule;
use ovs_fields::{Key, agree};

/// The stored rule at a place, if there is one.
pub(crate) fn rule_at(rules: &[StoredRule], place: usize) -> Option<&StoredRule>
    ensures { option_map (λ s. s.now) result ≡ slice_get rules.now place }
{
    rules.get(place)
}

/// The stored rules that the edits past `before` added, up to `after`. They stand in the order of their numbers.
pub(crate) fn added_between(rules: &[StoredRule], before: u32, after: u32) -> &[StoredRule]
    requires { AreInOrder rules.now }
    ensures { IsBetween (λ s. s.rule.number) before after rules.now result.now }
{
    let first = rules.partition_point(|stored| stored.rule.number <= before);
    let (_, later) = rules.split_at(first);
    let count = later.partition_point(|stored| stored.rule.number <= after);
    let (added, _) = later.split_at(count);
    added
}

// The stored rule at a place, if it has a number.
fn numbered_at(rules: &[StoredRule], place: usize, number: u32) -> Option<&StoredRule>
    requires { AreInOrder rules.now }
    ensures { IfSome result (λ s. stored_numbered number rules.now ≡ Some s.now) }
{
    let stored = rule_at(rules, place)?;
    if stored.rule.number == number {
        Some(stored)
    } else {
        None
    }
}

// The stored rule of a number, wherever it stands.
fn search_number(rules: &[StoredRule], number: u32) -> Option<&StoredRule>
    requires { AreInOrder rules.now }
    ensures { option_map (λ s. s.now) result ≡ stored_numbered number rules.now }
{
    let place = rules.partition_point(|stored| stored.rule.number < number);
    let stored = rule_at(rules, place)?;
    if stored.rule.number == number {
        Some(stored)
    } else {
        None
    }
}

/// The stored rule of a number. They stand in the order of their numbers.
pub(crate) fn stored_at(rules: &[StoredRule], number: u32) -> Option<&StoredRule>
    requires { AreInOrder rules.now }
    ensures { option_map (λ s. s.now) result ≡ stored_numbered number rules.now }
{
    // It stands there where each edit before it added a rule.
    let usual = (number as usize).saturating_sub(1);
    match numbered_at(rules, usual, number) {
        Some(stored) => Some(stored),
        None => search_number(rules, number),
    }
}

/// The stored rule of a number, if it is live after so many edits.
pub(crate) fn find_live(rules: &[StoredRule], after: u32, number: u32) -> Option<&StoredRule>
    requires { AreInOrder rules.now }
    ensures rule { (made : List Modification) → option_map (λ s. stored_in made after s.now) result ≡ rule_numbered number (rules_at made after rules.now) }
    ensures live { IfSome result (λ s. is_alive after s.now ≡ true) }
    ensures stored { IfSome result (λ s. stored_numbered number rules.now ≡ Some s.now) }
{
    let stored = stored_at(rules, number)?;
    if stored.is_live(after) {
        Some(stored)
    } else {
        None
    }
}

fn is_beaten_by(rule: &StoredRule, other: &StoredRule) -> bool
    ensures { (made : List Modification) (v : ℕ) → result ≡ is_beaten (stored_in made v rule.now) (stored_in made v other.now) }
{
    rule.rule.priority < other.rule.priority
        || (rule.rule.priority == other.rule.priority && other.rule.number < rule.rule.number)
}

fn better_of<'a>(rule: &'a StoredRule, best: Option<&'a StoredRule>) -> &'a StoredRule
    ensures { (made : List Modification) (v : ℕ) → better (stored_in made v rule.now) (option_map (λ s. stored_in made v s.now) best.entry) ≡ Some (stored_in made v result.now) }
{
    match best {
        None => rule,
        Some(other) => {
            if is_beaten_by(rule, other) {
                other
            } else {
                rule
            }
        }
    }
}

/// Whether a rule is live after so many edits, stands in a table and matches a key.
fn is_candidate(stored: &StoredRule, after: u32, table: u8, key: &Key) -> bool
    ensures { result ≡ is_candidate after table (numbers key.now) stored.now }
{
    let rule = &stored.rule;
    rule.table == table
        && stored.is_live(after)
        && agree(key, &rule.matching.key, &rule.matching.mask)
}

/// The winner for a key in a table after so many edits.
pub(crate) fn winner_of<'a>(
    rules: &'a [StoredRule],
    after: u32,
    table: u8,
    key: &Key,
) -> Option<&'a StoredRule>
    ensures { (made : List Modification) → option_map (λ s. stored_in made after s.now) result ≡ winner (rules_in table (rules_at made after rules.now)) (numbers key.now) }
{
    let mut best = None;
    'rules: for i in (0..rules.len()).rev() {
        let stored = &rules[i];
        if is_candidate(stored, after, table, key) {
            best = Some(better_of(stored, best));
        }
    }
    best
}
