ghost use Rattle.std.specs.Prelude.{◌≡◌, ◌+◌, ◌<◌, ◌≤◌, IsTrue, IfOk, OnOk, OnErr, Some};
ghost use Rattle.std.specs.Option.{option_map};
ghost use Rattle.spec_tables.specs.Rules.{rules_in, winner};
ghost use Rattle.spec_tables.specs.Live.{is_live, rule_numbered};
ghost use Rattle.spec_xlate.specs.Lookup.{added, consults};
ghost use Rattle.ovs_fields.specs.Packed.{numbers, bits};
ghost use Rattle.rule_tables.specs.History.{newest};
ghost use Rattle.tuple_classifier.specs.Versions.{version_in};

use crate::changing::{put_all, take_all};
use crate::table::Table;
use ovs_fields::{Key, Mask};
use rule_tables::{OfAction, VersionedRules};
use std::alloc::{AllocError, Global};
use std::marker::Model;

/// The rules of one version of a store, by their masks.
#[derive(Drop)]
pub struct Tables<'s> {
    alloc: Global,
    /// The rules of all versions.
    store: &'s VersionedRules,
    version: u32,
    /// The rules of each table, by its number.
    tables: Vec<Table>,
}

impl<'s> Model for Tables<'s> {
    ghost use Rattle.tuple_classifier.specs.Versions.{Version};

    ghost Value = { Version };

    ghost use Rattle.tuple_classifier.specs.Held.{version_at, HoldsVersion};

    ghost view = { version_at };

    ghost invariant = { HoldsVersion };
}

impl<'s> Tables<'s> {
    /// Version 0 of a store, which has no rules. It takes no memory.
    pub fn new(alloc: Global, store: &'s VersionedRules) -> Tables<'s>
        ensures { result ≡ version_in store.now 0 }
    {
        store.first_law();
        Tables {
            alloc,
            store,
            version: 0,
            tables: Vec::new(alloc),
        }
    }

    /// The last version of a store. The only error is out of memory.
    pub fn last(alloc: Global, store: &'s VersionedRules) -> Result<Tables<'s>, AllocError>
        ensures { IfOk result (λ tables. tables ≡ version_in store.now (newest store.now)) }
    {
        let mut tables = Tables::new(alloc, store);
        'versions: while tables.version() < store.version() {
            tables.advance()?;
        }
        Ok(tables)
    }

    /// The version, which is how many bundles led to it.
    pub fn version(&self) -> u32
        ensures number { result ≡ self.now.number }
        ensures made { result ≤ newest self.now.history }
    {
        self.version
    }

    /// The number of the rule that wins for a key in a table. The bits that the lookup consults are added to
    /// `consulted`.
    pub fn look(&self, table: u8, key: &Key, consulted: &mut Mask) -> Option<u32>
        ensures winner { result
            ≡ option_map (λ r. r.number)
            (winner (rules_in table self.now.rules) (numbers key.now)) }
        ensures consulted { bits consulted.new
            ≡ added (bits consulted.old)
            (consults (rules_in table self.now.rules) (numbers key.now)) }
    {
        if (table as usize) < self.tables.len() {
            self.tables[table as usize].look(key, consulted)
        } else {
            None
        }
    }

    /// The actions of a live rule.
    pub fn actions(&self, number: u32) -> &[OfAction]
        requires { IsTrue (is_live number self.now.rules) }
        ensures { option_map (λ r. r.actions) (rule_numbered number self.now.rules)
            ≡ Some result.now }
    {
        self.store.actions(self.version, number)
    }

    /// Makes the tables of the next version, and answers its number.
    ///
    /// The only error is out of memory, and then the version stays. A bundle that brings no rule takes none.
    pub fn advance(&mut self) -> Result<u32, AllocError>
        requires { self.old.number < newest self.old.history }
        ensures next { OnOk result
            (self.new ≡ version_in self.old.history (self.old.number + 1)) }
        ensures version { IfOk result (λ v. v ≡ self.new.number) }
        ensures err { OnErr result (self.new ≡ self.old) }
    {
        // That the next version is a `u32`.
        let _ = self.store.version();
        self.store.change_laws(self.version);
        let change = self.store.change(self.version);
        put_all(self.alloc, &mut self.tables, &change)?;
        take_all(&mut self.tables, &change);
        self.version += 1;
        Ok(self.version)
    }
}
