//! The rules after each edit, edit by edit.
ghost use Rattle.std.specs.Prelude.{◌≡◌, ◌+◌, ◌<◌, ◌≤◌, ◌^◌, ◌↔◌, IsTrue, IsNone, IfSome, OnOk, Some, None, [], ◌++◌, length, map, is_some, if◌then◌else◌, IsPermutation};
ghost use Rattle.std.specs.Option.{option_map};
ghost use Rattle.spec_tables.specs.declared.edit_word.EditWord.TheVariants.{Add, Delete, DeleteStrict};
ghost use Rattle.spec_tables.specs.Rules.{rules_in, winner};
ghost use Rattle.spec_tables.specs.Live.{is_live, rule_numbered};
ghost use Rattle.ovs_fields.specs.Packed.{numbers};
ghost use Rattle.rule_tables.specs.Added.{IsAdded};
ghost use Rattle.rule_tables.specs.Bare.{bare, apart_from, told, IsChangedTo, AreRising};
ghost use Rattle.rule_tables.specs.Edited.{is_add, adds_in, modifies_in};
ghost use Rattle.rule_tables.specs.History.{applied, rules_after, added_as, edited_by, edited_by_all};

use crate::changes::Change;
use crate::edit::Edit;
use crate::ending::Ending;
use crate::givings::{GivingLog, actions_in, cookie_in};
use crate::places::RulePlaces;
use crate::rule::Rule;
use crate::search::{find_live, stored_at, winner_of};
use crate::signatures::Signature;
use crate::stored::{Modification, StoredRule, count_acted_on, end_rule, end_rules};
use ovs_fields::Key;
use spec_actions::OfAction;
use spec_tables::EditWord;
use std::alloc::{AllocError, Global};
use std::marker::Model;

/// The rules after each edit that was applied, those of none before the first included.
#[derive(Drop)]
pub(crate) struct EditedRules {
    /// Every rule that was ever added, in the order of their numbers.
    rules: Vec<StoredRule>,
    /// What the modifies made, in the order of their numbers.
    modifications: Vec<Modification>,
    /// What each rule was given of them.
    log: GivingLog,
    /// The places among them of those that are live.
    places: RulePlaces,
    /// The lives that ended, in the order of the edits that ended them.
    ends: Vec<Ending>,
    /// The signature of each rule's match, in the same order, by which loose words pass most rules over.
    signatures: Vec<Signature>,
    /// The number of the last edit: how many were applied.
    last: u32,
    changes: u64,
}

impl Model for EditedRules {
    ghost use Rattle.rule_tables.specs.Edited.{Edited};

    ghost Value = { Edited };

    ghost use Rattle.rule_tables.specs.EditedRules.{edited_in, IsConsistent};

    ghost view = { edited_in };

    ghost invariant = { IsConsistent };
}

impl EditedRules {
    ghost use Rattle.std.specs.Prelude.{true, count_by};
    ghost use Rattle.spec_tables.specs.Edits.{rule_of};
    ghost use Rattle.rule_tables.specs.History.{no_edits};
    ghost use Rattle.rule_tables.specs.Views.{rule_view};
    ghost use Rattle.rule_tables.specs.Stored.{is_modify, is_picked_by};

    /// No rules, and no edits. It takes no memory.
    pub(crate) fn new(alloc: Global) -> EditedRules
        ensures { result.history ≡ no_edits }
    {
        EditedRules {
            rules: Vec::new(alloc),
            modifications: Vec::new(alloc),
            log: GivingLog::new(alloc),
            places: RulePlaces::new(alloc),
            ends: Vec::new(alloc),
            signatures: Vec::new(alloc),
            last: 0,
            changes: 0,
        }
    }

    /// How many edits were applied.
    pub(crate) fn applied(&self) -> u32
        ensures applied { result ≡ applied self.now.history }
        ensures states { length self.now.history.states ≡ result + 1 }
    {
        self.last
    }

    /// How many rules the edits added, gave actions to and removed; an add that replaces a rule counts twice.
    pub(crate) fn changes(&self) -> u64
        ensures { result ≡ self.now.history.changes }
    {
        self.changes
    }

    /// Takes the memory for as many adds and modifies, but for that of the log. The only error is out of memory, and then
    /// nothing changed.
    pub(crate) fn reserve(&mut self, adds: usize, modifies: usize) -> Result<(), AllocError>
        ensures same { self.new.history ≡ self.old.history }
        ensures adds { OnOk result (adds ≤ self.new.adds) }
        ensures modifies { OnOk result (modifies ≤ self.new.modifies) }
    {
        self.rules.reserve(adds)?;
        self.places.reserve(adds)?;
        self.modifications.reserve(modifies)?;
        self.signatures.reserve(adds)?;
        self.ends.reserve(self.rules.capacity() - self.ends.len())?;
        Ok(())
    }

    /// Applies edits, one after the other. There is memory for them.
    pub(crate) fn apply_all(&mut self, edits: Vec<Edit>)
        requires few { applied self.old.history + length edits.items < 2 ^ 32 }
        requires adds { adds_in edits.items ≤ self.old.adds }
        requires modifies { modifies_in edits.items ≤ self.old.modifies }
        ensures edited { self.new.history ≡ edited_by_all edits.items self.old.history }
        ensures applied { applied self.new.history ≡ applied self.old.history + length edits.items }
    {
        // That there is one more state than edits, which the proof of the loop needs.
        let _ = self.applied();
        'edits: for edit in edits {
            self.apply(edit);
        }
    }

    /// The number of the rule that wins for a key in a table after so many edits.
    pub(crate) fn scan(&self, after: u32, table: u8, key: &Key) -> Option<u32>
        requires { after ≤ applied self.now.history }
        ensures { result ≡ option_map (λ r. r.number) (winner (rules_in table (rules_after self.now.history after)) (numbers key.now)) }
    {
        let stored = winner_of(&self.rules, after, table, key)?;
        Some(stored.rule.number)
    }

    /// The rule that the edit of a number added, as it was added.
    pub(crate) fn rule(&self, number: u32) -> Option<&Rule>
        ensures none { IsNone result ↔ (added_as self.now.history number ≡ None) }
        ensures some { IfSome result (λ r. IsAdded self.now.history number r.now) }
    {
        let stored = stored_at(&self.rules, number)?;
        Some(&stored.rule)
    }

    /// Whether the rule of a number is live after so many edits.
    pub(crate) fn live(&self, after: u32, number: u32) -> bool
        requires { after ≤ applied self.now.history }
        ensures { result ≡ is_live number (rules_after self.now.history after) }
    {
        find_live(&self.rules, after, number).is_some()
    }

    /// The cookie that a live rule has after so many edits.
    pub(crate) fn cookie(&self, after: u32, number: u32) -> u64
        requires made { after ≤ applied self.now.history }
        requires live { IsTrue (is_live number (rules_after self.now.history after)) }
        ensures { option_map (λ r. r.cookie) (rule_numbered number (rules_after self.now.history after)) ≡ Some result }
    {
        match find_live(&self.rules, after, number) {
            Some(stored) => cookie_in(stored, &self.log, &self.modifications, after),
            None => unreachable!(),
        }
    }

    /// The actions that a live rule has after so many edits.
    pub(crate) fn actions(&self, after: u32, number: u32) -> &[OfAction]
        requires made { after ≤ applied self.now.history }
        requires live { IsTrue (is_live number (rules_after self.now.history after)) }
        ensures { option_map (λ r. r.actions) (rule_numbered number (rules_after self.now.history after)) ≡ Some result.now }
    {
        match find_live(&self.rules, after, number) {
            Some(stored) => actions_in(stored, &self.log, &self.modifications, after),
            None => unreachable!(),
        }
    }

    /// What the edits past `before` changed, up to `after`.
    pub(crate) fn change(&self, before: u32, after: u32) -> Change<'_>
        requires order { before ≤ after }
        requires made { after ≤ applied self.now.history }
        ensures came { told result.came
            ≡ apart_from (rules_after self.now.history before) (rules_after self.now.history after) }
        ensures went { IsPermutation
            (apart_from (rules_after self.now.history after) (rules_after self.now.history before))
            (told result.went) }
    {
        Change::between(&self.rules, &self.ends, before, after)
    }

    /// How the rules after so many edits lead to those after more, but for what modifies give.
    pub(crate) fn change_laws(&self, before: u32, after: u32)
        requires order { before ≤ after }
        requires made { after ≤ applied self.now.history }
        ensures bare { IsChangedTo (rules_after self.now.history before)
            (rules_after self.now.history after) }
        ensures rising { AreRising (map bare (rules_after self.now.history before)
            ++ apart_from (rules_after self.now.history before) (rules_after self.now.history after)) }
        ensures few { length (map bare (rules_after self.now.history before)
            ++ apart_from (rules_after self.now.history before) (rules_after self.now.history after))
            < 2 ^ 32 }
    {
        let _ = &self.rules;
    }

    /// Before the first edit there are no rules.
    pub(crate) fn first_law(&self)
        ensures { rules_after self.now.history 0 ≡ [] }
    {
        let _ = &self.rules;
    }

    /// Applies the next edit. There is memory for it.
    fn apply(&mut self, edit: Edit)
        requires few { applied self.old.history + 1 < 2 ^ 32 }
        requires add { is_add edit.word ≡ true → 0 < self.old.adds }
        requires modify { is_modify edit.word ≡ true → 0 < self.old.modifies }
        ensures edited { self.new.history ≡ edited_by edit self.old.history }
        ensures adds { self.old.adds ≤ self.new.adds + (if is_add edit.word then 1 else 0) }
        ensures modifies { self.old.modifies ≤ self.new.modifies + (if is_modify edit.word then 1 else 0) }
    {
        match edit.word {
            EditWord::Add => self.add(edit),
            EditWord::Modify | EditWord::ModifyStrict => self.modify(edit),
            EditWord::Delete => self.delete(&edit),
            EditWord::DeleteStrict => self.delete_strict(&edit),
        }
    }

    /// Adds the rule of an edit, and ends the life of the one that it names.
    fn add(&mut self, edit: Edit)
        requires add { edit.word ≡ Add }
        requires few { applied self.old.history + 1 < 2 ^ 32 }
        requires room { 0 < self.old.adds }
        ensures edited { self.new.history ≡ edited_by edit self.old.history }
        ensures adds { self.old.adds ≤ self.new.adds + 1 }
        ensures modifies { self.old.modifies ≤ self.new.modifies }
    {
        let place = self.rules.len() as u32;
        let number = self.last + 1;
        let replaced = self.places.find(&self.rules, &edit);
        self.places.remove_at(&self.rules, replaced);
        let stored = StoredRule::new(number, edit);
        let signature = Signature::of(&stored.rule.matching.key, &stored.rule.matching.mask);
        self.places.insert(&stored.rule, place);
        self.rules.push_reserved(stored);
        self.signatures.push_reserved(signature);
        end_rule(&mut self.rules, &mut self.ends, replaced, number);
        self.last = number;
        self.changes += count_changes(replaced);
    }

    /// Gives the actions of an edit to the rules that it acts on.
    fn modify(&mut self, edit: Edit)
        requires modify { is_modify edit.word ≡ true }
        requires few { applied self.old.history + 1 < 2 ^ 32 }
        requires room { 0 < self.old.modifies }
        ensures edited { self.new.history ≡ edited_by edit self.old.history }
        ensures adds { self.old.adds ≤ self.new.adds }
        ensures modifies { self.old.modifies ≤ self.new.modifies + 1 }
    {
        let number = self.last + 1;
        let count = self.count(&edit);
        if count == 0 {
            self.last = number;
            return;
        }
        self.log.give(
            &mut self.rules,
            &self.places,
            &edit,
            &self.modifications,
            count,
            &self.signatures,
        );
        self.modifications
            .push_reserved(Modification { number, edit });
        self.last = number;
        self.changes += count as u64;
    }

    /// Removes the rules that a loose edit reaches.
    fn delete(&mut self, edit: &Edit)
        requires delete { edit.now.word ≡ Delete }
        requires few { applied self.old.history + 1 < 2 ^ 32 }
        ensures edited { self.new.history ≡ edited_by edit.now self.old.history }
        ensures adds { self.old.adds ≤ self.new.adds }
        ensures modifies { self.old.modifies ≤ self.new.modifies }
    {
        let number = self.last + 1;
        let count = end_rules(
            &mut self.rules,
            &mut self.places,
            &mut self.ends,
            edit,
            number,
            &self.signatures,
        );
        self.last = number;
        self.changes += count as u64;
    }

    /// Removes the rule that an edit names.
    fn delete_strict(&mut self, edit: &Edit)
        requires delete { edit.now.word ≡ DeleteStrict }
        requires few { applied self.old.history + 1 < 2 ^ 32 }
        ensures edited { self.new.history ≡ edited_by edit.now self.old.history }
        ensures adds { self.old.adds ≤ self.new.adds }
        ensures modifies { self.old.modifies ≤ self.new.modifies }
    {
        let number = self.last + 1;
        let place = self.places.find(&self.rules, edit);
        self.places.remove_at(&self.rules, place);
        end_rule(&mut self.rules, &mut self.ends, place, number);
        self.last = number;
        self.changes += u64::from(place.is_some());
    }

    /// On how many rules an edit acts. A strict word acts on the one that it names.
    fn count(&self, edit: &Edit) -> usize
        requires { is_modify edit.now.word ≡ true }
        ensures { result ≡ count_by (is_picked_by edit.now.word edit.now) (rules_after self.now.history (applied self.now.history)) }
    {
        match edit.word {
            EditWord::Modify => count_acted_on(&self.rules, edit, &self.signatures),
            _ => usize::from(self.places.find(&self.rules, edit).is_some()),
        }
    }
}

/// How many rules an edit changes that adds one, in place of the one at a place if there is one.
fn count_changes(replaced: Option<u32>) -> u64
    ensures { result ≡ (if is_some replaced then 2 else 1) }
{
    if replaced.is_some() { 2 } else { 1 }
}
