ghost use Rattle.std.specs.Prelude.{◌≡◌, ◌+◌, ◌<◌, ◌≤◌, ◌^◌, ◌↔◌, IsTrue, IsNone, IfSome, IfOk, OnOk, OnErr, Some, None, [], ◌++◌, length, map, IsPermutation};
ghost use Rattle.std.specs.Option.{option_map};
ghost use Rattle.spec_tables.specs.Rules.{rules_in, winner};
ghost use Rattle.spec_tables.specs.Edits.{without};
ghost use Rattle.spec_tables.specs.Live.{is_live, rule_numbered};
ghost use Rattle.ovs_fields.specs.Packed.{numbers};
ghost use Rattle.rule_tables.specs.Added.{IsAdded};
ghost use Rattle.rule_tables.specs.Bare.{bare, told, AreRising};
ghost use Rattle.rule_tables.specs.Changes.{came, went};
ghost use Rattle.rule_tables.specs.Edited.{adds_in, modifies_in};
ghost use Rattle.rule_tables.specs.History.{applied, newest, rules_of, added_as, bundled_by};

use crate::changes::Change;
use crate::edit::{Edit, count_adds, count_modifies};
use crate::edited::EditedRules;
use crate::rule::Rule;
use ovs_fields::Key;
use spec_actions::OfAction;
use std::alloc::{AllocError, Global};
use std::marker::Model;

/// The rules of every version that bundles of edits made, version 0 of none included.
#[derive(Drop)]
pub struct VersionedRules {
    /// The rules after each edit.
    edited: EditedRules,
    /// How many edits stand through each bundle.
    bundles: Vec<u32>,
}

impl Model for VersionedRules {
    ghost use Rattle.rule_tables.specs.History.{History};

    ghost Value = { History };

    ghost use Rattle.rule_tables.specs.Versions.{versions_in, AreBundled};

    ghost view = { versions_in };

    ghost invariant = { AreBundled };
}

impl VersionedRules {
    ghost use Rattle.spec_tables.specs.Bundles.{edits_through};
    ghost use Rattle.rule_tables.specs.History.{no_bundles};

    /// No rules, and no version but version 0. It takes no memory.
    pub fn new(alloc: Global) -> VersionedRules
        ensures { result ≡ no_bundles }
    {
        VersionedRules {
            edited: EditedRules::new(alloc),
            bundles: Vec::new(alloc),
        }
    }

    /// The last version, which is how many bundles were applied.
    pub fn version(&self) -> u32
        ensures { result ≡ newest self.now }
    {
        self.bundles.len() as u32
    }

    /// How many edits were applied.
    pub fn edits(&self) -> u32
        ensures { result ≡ applied self.now.edits }
    {
        self.edited.applied()
    }

    /// How many rules the edits added, gave actions to and removed; an add that replaces a rule counts twice.
    pub fn changes(&self) -> u64
        ensures { result ≡ self.now.edits.changes }
    {
        self.edited.changes()
    }

    /// Makes the next version by the edits of a bundle, and answers it.
    ///
    /// The edits act one after the other. An add puts its rule in place of a live one of the same table, priority and
    /// match. A modify gives its actions, and its cookie where it has one, to every live rule whose match is the given one
    /// or more specific, and a delete removes those; the strict words act on the one live rule of the given table, priority
    /// and match. A word that finds no rule changes none.
    ///
    /// The only error is out of memory, and then nothing changed.
    pub fn apply(&mut self, bundle: Vec<Edit>) -> Result<u32, AllocError>
        requires some { 0 < length bundle.items }
        requires few { applied self.old.edits + length bundle.items < 2 ^ 32 }
        ensures bundled { OnOk result (self.new ≡ bundled_by bundle.items self.old) }
        ensures version { IfOk result (λ v. v ≡ newest self.new) }
        ensures err { OnErr result (self.new ≡ self.old) }
    {
        self.bundles.reserve(1)?;
        self.edited
            .reserve(count_adds(&bundle), count_modifies(&bundle))?;
        self.edited.apply_all(bundle);
        let applied = self.edited.applied();
        self.bundles.push_reserved(applied);
        Ok(self.version())
    }

    /// The number of the rule that wins for a key in a table of a version.
    pub fn scan(&self, v: u32, table: u8, key: &Key) -> Option<u32>
        requires { v ≤ newest self.now }
        ensures { result ≡ option_map (λ r. r.number) (winner (rules_in table (rules_of self.now v)) (numbers key.now)) }
    {
        let edits = self.edits_through(v);
        self.edited.scan(edits, table, key)
    }

    /// The rule that the edit of a number added, as it was added. It may have come and gone within one bundle, and be live
    /// in no version.
    pub fn rule(&self, number: u32) -> Option<&Rule>
        ensures none { IsNone result ↔ (added_as self.now.edits number ≡ None) }
        ensures some { IfSome result (λ r. IsAdded self.now.edits number r.now) }
    {
        self.edited.rule(number)
    }

    /// Whether the rule of a number is live in a version.
    pub fn live(&self, v: u32, number: u32) -> bool
        requires { v ≤ newest self.now }
        ensures { result ≡ is_live number (rules_of self.now v) }
    {
        let edits = self.edits_through(v);
        self.edited.live(edits, number)
    }

    /// The cookie that a live rule has in a version.
    pub fn cookie(&self, v: u32, number: u32) -> u64
        requires made { v ≤ newest self.now }
        requires live { IsTrue (is_live number (rules_of self.now v)) }
        ensures { option_map (λ r. r.cookie) (rule_numbered number (rules_of self.now v)) ≡ Some result }
    {
        let edits = self.edits_through(v);
        self.edited.cookie(edits, number)
    }

    /// The actions that a live rule has in a version.
    pub fn actions(&self, v: u32, number: u32) -> &[OfAction]
        requires made { v ≤ newest self.now }
        requires live { IsTrue (is_live number (rules_of self.now v)) }
        ensures { option_map (λ r. r.actions) (rule_numbered number (rules_of self.now v)) ≡ Some result.now }
    {
        let edits = self.edits_through(v);
        self.edited.actions(edits, number)
    }

    /// What the bundle after a version changed, which makes the next one.
    pub fn change(&self, v: u32) -> Change<'_>
        requires { v < newest self.now }
        ensures came { told result.came ≡ came self.now v }
        ensures went { IsPermutation (went self.now v) (told result.went) }
    {
        // That the next version is a `u32`.
        let _ = self.version();
        let before = self.edits_through(v);
        let next = v + 1;
        let after = self.edits_through(next);
        self.edited.change(before, after)
    }

    /// How the rules of a version lead to those of the next one. Those that come have greater numbers.
    pub fn change_laws(&self, v: u32)
        requires { v < newest self.now }
        ensures bare { map bare (rules_of self.now (v + 1))
            ≡ without (λ r. is_live r.number (went self.now v)) (map bare (rules_of self.now v))
            ++ came self.now v }
        ensures rising { AreRising (map bare (rules_of self.now v) ++ came self.now v) }
        ensures few { length (map bare (rules_of self.now v) ++ came self.now v) < 2 ^ 32 }
    {
        // That the next version is a `u32`.
        let _ = self.version();
        let before = self.edits_through(v);
        let next = v + 1;
        let after = self.edits_through(next);
        self.edited.change_laws(before, after);
    }

    /// Version 0 has no rules.
    pub fn first_law(&self)
        ensures { rules_of self.now 0 ≡ [] }
    {
        self.edited.first_law();
    }

    /// How many edits stand through a bundle.
    fn edits_through(&self, v: u32) -> u32
        requires { v ≤ newest self.now }
        ensures { result ≡ edits_through self.now.bundles v }
    {
        if v == 0 {
            return 0;
        }
        self.bundles[v as usize - 1]
    }
}
