//! The places of the live rules, by the hashes of what edits name them by.
ghost use Rattle.std.specs.Prelude.{◌≡◌, ◌+◌, ◌<◌, ◌≤◌, ℕ, not, ◌==◌, List, [], length, filter, slice_get, Some, OnOk, vec_len, vec_capacity, true};
ghost use Rattle.std.specs.Option.{ForSome};
ghost use Rattle.spec_tables.specs.Edits.{is_named_by};
ghost use Rattle.rule_tables.specs.declared.stored.StoredRule.{StoredRule};
ghost use Rattle.rule_tables.specs.Stored.{with_end};
ghost use Rattle.rule_tables.specs.Views.{match_view, rule_view};
ghost use Rattle.rule_tables.specs.RulePlaces.{identity_hash, rule_hash, edit_hash, room_in, ArePlaced, IsNamedPlace, IsPlacedNext, IsPlacedNoMore};

use crate::edit::Edit;
use crate::matching::Match;
use crate::rule::Rule;
use crate::stored::StoredRule;
use std::alloc::{AllocError, Global};
use std::collections::HashMap;
use std::hash::{FoldHasher, Hash, Hasher};

/// The places of the live rules among all that are stored.
///
/// It holds no match: whether an edit names a rule is tested at the rule itself. So rules of one hash are told apart, only
/// slower.
#[derive(Drop)]
pub(crate) struct RulePlaces {
    /// The place of the rule that came last of each hash, while that is live.
    pub(crate) by_hash: HashMap<u64, u32>,
    /// The places of those that came before another of their hash. There are hardly ever any.
    pub(crate) others: Vec<u32>,
}

impl RulePlaces {
    /// Those of no rules. It takes no memory.
    pub(crate) fn new(alloc: Global) -> RulePlaces
        ensures { ArePlaced result [] }
    {
        RulePlaces {
            by_hash: HashMap::new(alloc),
            others: Vec::new(alloc),
        }
    }

    /// Takes the memory for as many more rules. The only error is out of memory; the places stay in either case.
    pub(crate) fn reserve(&mut self, additional: usize) -> Result<(), AllocError>
        ensures placed { (stored : List StoredRule) → ArePlaced self.old stored → ArePlaced self.new stored }
        ensures room { OnOk result (additional ≤ room_in self.new) }
    {
        self.by_hash.reserve(additional)?;
        self.others.reserve(additional)
    }

    /// The place of the live rule that an edit names, if there is one.
    pub(crate) fn find(&self, rules: &[StoredRule], edit: &Edit) -> Option<u32>
        requires { ArePlaced self.now rules.now }
        ensures { IsNamedPlace rules.now edit.now result }
    {
        let hash = edit_hash(edit);
        if let Some(&place) = self.by_hash.get(&hash) {
            if is_named(rules, place, edit) {
                return Some(place);
            }
        }
        'others: for &other in &self.others {
            if is_named(rules, other, edit) {
                return Some(other);
            }
        }
        None
    }

    /// Takes up the place of a rule that comes next. There is room for it.
    pub(crate) fn insert(&mut self, rule: &Rule, place: u32)
        requires { 0 < room_in self.old }
        ensures placed { IsPlacedNext self.old self.new rule.now place }
        ensures room { room_in self.old ≤ room_in self.new + 1 }
    {
        let Ok(other) = self.by_hash.insert(rule_hash(rule), place) else {
            unreachable!()
        };
        if let Some(other) = other {
            self.others.push_reserved(other);
        }
    }

    /// Gives up the place of a rule whose life ends.
    pub(crate) fn remove(&mut self, rule: &Rule, place: u32)
        ensures placed { IsPlacedNoMore self.old self.new rule.now place }
        ensures room { room_in self.old ≤ room_in self.new }
    {
        let hash = rule_hash(rule);
        if self.by_hash.get(&hash).copied() == Some(place) {
            self.by_hash.remove(&hash);
        }
        remove_place(&mut self.others, place);
    }

    /// Gives up the place of the rule there, if there is a place.
    pub(crate) fn remove_at(&mut self, rules: &[StoredRule], place: Option<u32>)
        requires { ForSome place (λ i. i < length rules.now) }
        ensures placed { (gone : ℕ) → ArePlaced self.old rules.now → ArePlaced self.new (with_end place gone rules.now) }
        ensures room { room_in self.old ≤ room_in self.new }
    {
        if let Some(place) = place {
            self.remove(&rules[place as usize].rule, place);
        }
    }
}

/// Takes a place out of others.
fn remove_place(others: &mut Vec<u32>, place: u32)
    ensures items { others.new.items ≡ filter (λ other. not (other == place)) others.old.items }
    ensures len { vec_len others.new ≤ vec_len others.old }
    ensures capacity { vec_capacity others.new ≡ vec_capacity others.old }
{
    others.retain(|other| *other != place);
}

/// Whether an edit names the rule at a place.
fn is_named(rules: &[StoredRule], place: u32, edit: &Edit) -> bool
    requires { place < length rules.now }
    ensures { (s : StoredRule) → slice_get rules.now place ≡ Some s → result ≡ is_named_by edit.now (rule_view s.rule []) }
{
    edit.names(&rules[place as usize].rule)
}

/// The hash of what an edit names a rule by.
fn edit_hash(edit: &Edit) -> u64
    ensures { result ≡ edit_hash edit.now }
{
    identity_hash(edit.table.unwrap_or(0), edit.priority, &edit.matching)
}

/// The hash of what edits name a rule by.
fn rule_hash(rule: &Rule) -> u64
    ensures { result ≡ rule_hash rule.now }
{
    identity_hash(rule.table, rule.priority, &rule.matching)
}

/// The hash of a table, a priority and a match. The mask counts as well as the key, since routes to nested networks share
/// their key.
#[tactic(auto, unfolding(crate::specs::RulePlaces::identity_hash))]
fn identity_hash(table: u8, priority: u16, matching: &Match) -> u64
    ensures { result ≡ identity_hash table priority (match_view matching.now) }
{
    let mut state = FoldHasher::default();
    state.write_u8(table);
    state.write_u16(priority);
    matching.key.hash(&mut state);
    matching.mask.hash(&mut state);
    state.finish()
}
