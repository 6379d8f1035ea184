//! What the edits of a bundle changed, but for what modifies gave.
ghost use Rattle.std.specs.Prelude.{◌≡◌, ℕ, ◌<◌, ◌≤◌, List, length, slice_get, Some, IsPermutation};
ghost use Rattle.std.specs.Option.{option_map};
ghost use Rattle.rule_tables.specs.declared.stored.Modification.{Modification};
ghost use Rattle.rule_tables.specs.Bare.{bare_view, apart_from, told};
ghost use Rattle.rule_tables.specs.Changes.{came_at, went_at};
ghost use Rattle.rule_tables.specs.Ends.{AreEnds};
ghost use Rattle.rule_tables.specs.Stored.{rules_at, AreInOrder};

use crate::ending::{Ending, end_at, ended_between};
use crate::rule::Rule;
use crate::search::{added_between, rule_at};
use crate::stored::StoredRule;
use std::marker::Model;

/// Which rules came with a version, and which went: a rule that came and went within one bundle did neither. It is told
/// by places, in the order in which the rules came, and in that in which they went. A place may tell of none.
#[derive(Drop)]
pub struct Change<'a> {
    /// The rules that edits of the bundle added.
    added: &'a [StoredRule],
    /// The lives that they ended.
    ended: &'a [Ending],
    /// Every rule that was ever added.
    rules: &'a [StoredRule],
    /// How many edits stand before the bundle.
    before: u32,
    /// How many stand through it.
    after: u32,
}

impl<'a> Model for Change<'a> {
    ghost use Rattle.rule_tables.specs.Changes.{Changed};

    ghost Value = { Changed };

    ghost use Rattle.rule_tables.specs.Changes.{changed_in};

    ghost view = { changed_in };
}

impl<'a> Change<'a> {
    /// What the edits past `before` changed, up to `after`.
    pub(crate) fn between(
        rules: &'a [StoredRule],
        ends: &'a [Ending],
        before: u32,
        after: u32,
    ) -> Change<'a>
        requires order { before ≤ after }
        requires in_order { AreInOrder rules.now }
        requires ends { (last : ℕ) × AreEnds ends.now rules.now last }
        ensures came { (made : List Modification)
            → told result.came
            ≡ apart_from (rules_at made before rules.now) (rules_at made after rules.now) }
        ensures went { (made : List Modification)
            → IsPermutation (apart_from (rules_at made after rules.now) (rules_at made before rules.now))
            (told result.went) }
    {
        Change {
            added: added_between(rules, before, after),
            ended: ended_between(ends, before, after),
            rules,
            before,
            after,
        }
    }

    /// At how many places it tells of rules that came.
    pub fn came_len(&self) -> usize
        ensures { result ≡ length self.now.came }
    {
        self.added.len()
    }

    /// The rule that came, at a place.
    pub fn came(&self, place: usize) -> Option<&Rule>
        requires { place < length self.now.came }
        ensures { slice_get self.now.came place ≡ Some (option_map (λ r. bare_view r.now) result) }
    {
        came_in(self.added, place, self.after)
    }

    /// At how many places it tells of rules that went.
    pub fn went_len(&self) -> usize
        ensures { result ≡ length self.now.went }
    {
        self.ended.len()
    }

    /// The rule that went, at a place.
    pub fn went(&self, place: usize) -> Option<&Rule>
        requires { place < length self.now.went }
        ensures { slice_get self.now.went place ≡ Some (option_map (λ r. bare_view r.now) result) }
    {
        went_in(self.rules, self.ended, place, self.before)
    }
}

/// The rule at a place of some that were added, if it is live after so many edits.
fn came_in(added: &[StoredRule], place: usize, after: u32) -> Option<&Rule>
    requires { place < length added.now }
    ensures { option_map (came_at after) (slice_get added.now place)
        ≡ Some (option_map (λ r. bare_view r.now) result) }
{
    let stored = &added[place];
    if stored.is_live(after) {
        Some(&stored.rule)
    } else {
        None
    }
}

/// The rule whose life ended, at a place of some ends, if it was added by one of so many edits.
fn went_in<'a>(
    rules: &'a [StoredRule],
    ended: &[Ending],
    place: usize,
    before: u32,
) -> Option<&'a Rule>
    requires { place < length ended.now }
    ensures { option_map (went_at rules.now before) (slice_get ended.now place)
        ≡ Some (option_map (λ r. bare_view r.now) result) }
{
    let end = end_at(ended, place);
    let stored = rule_at(rules, end.place as usize)?;
    if stored.rule.number <= before {
        Some(&stored.rule)
    } else {
        None
    }
}
