ghost use Rattle.std.specs.Prelude.{◌≡◌, IfOk, [], List};
ghost use Rattle.spec_tables.specs.Edits.{is_in_table, is_named_by, is_reached_by};
ghost use Rattle.rule_tables.specs.Edited.{is_add, adds_in, modifies_in};
ghost use Rattle.rule_tables.specs.Views.{rule_view};
ghost use Rattle.rule_tables.specs.Stored.{is_modify, picks, IsWanted};

use crate::actions::Actions;
use crate::matching::Match;
use crate::rule::Rule;
use crate::signatures::{Signature, rules_include_their_edits};
use spec_tables::EditWord;
use std::alloc::{AllocError, Global};
use std::marker::Model;

/// An edit of the tables (ovs-ofctl(8), `add-flow`, `mod-flows` and `del-flows`).
#[derive(Drop)]
pub struct Edit {
    pub word: EditWord,
    /// The table, from 0 to 254, where the edit names one.
    pub table: Option<u8>,
    /// The stated priority, 32768 by default; the loose words ignore it.
    pub priority: u16,
    /// The cookie, where the edit has one.
    pub cookie: Option<u64>,
    pub matching: Match,
    pub actions: Actions,
}

impl Model for Edit {
    ghost use Rattle.spec_tables.specs.Edits as tables;

    ghost Value = { tables.Edit };

    ghost use Rattle.rule_tables.specs.Views.{match_view};

    ghost view = { λ e. record { word = e.word; table = e.table; priority = e.priority; cookie = e.cookie; matching = match_view e.matching; actions = e.actions } };
}

impl Edit {
    /// The same edit again. Out of memory is the only error.
    pub fn copy(&self, alloc: Global) -> Result<Edit, AllocError>
        ensures { IfOk result (λ e. e ≡ self.now) }
    {
        let actions = Vec::from_slice(alloc, self.actions.as_slice())?;
        Ok(Edit {
            word: self.word,
            table: self.table,
            priority: self.priority,
            cookie: self.cookie,
            matching: self.matching,
            actions: Actions::new(actions),
        })
    }

    /// Whether the edit acts on a rule that is live: a loose word on each that it reaches, another on the one that it names.
    pub fn picks(&self, rule: &Rule) -> bool
        ensures { result ≡ picks self.now rule.now }
    {
        match self.word {
            EditWord::Modify | EditWord::Delete => self.reaches(rule),
            EditWord::Add | EditWord::ModifyStrict | EditWord::DeleteStrict => self.names(rule),
        }
    }

    /// What the signature of each rule that the edit picks includes.
    pub fn wanted(&self) -> Signature
        ensures { IsWanted result self.now }
    {
        rules_include_their_edits();
        Signature::of(&self.matching.key, &self.matching.mask)
    }

    /// Whether a rule's match is the edit's or one more specific, in the edit's table or in any where it names none.
    fn reaches(&self, rule: &Rule) -> bool
        ensures { result ≡ is_reached_by self.now (rule_view rule.now []) }
    {
        is_in_table(self.table, rule) && rule.matching.is_within(&self.matching)
    }

    /// Whether a rule has the edit's table, priority and match.
    pub(crate) fn names(&self, rule: &Rule) -> bool
        ensures { result ≡ is_named_by self.now (rule_view rule.now []) }
    {
        rule.table == self.table.unwrap_or(0)
            && rule.priority == self.priority
            && rule.matching == self.matching
    }
}

/// Whether a rule stands in a table, or in any where none is given.
fn is_in_table(table: Option<u8>, rule: &Rule) -> bool
    ensures { result ≡ is_in_table table (rule_view rule.now []) }
{
    match table {
        None => true,
        Some(table) => rule.table == table,
    }
}

/// How many edits of a list add rules.
pub(crate) fn count_adds(list: &[Edit]) -> usize
    ensures { result ≡ adds_in list.now }
{
    let mut count = 0;
    'list: for edit in list {
        if is_add(edit) {
            count += 1;
        }
    }
    count
}

/// How many edits of a list give actions to rules.
pub(crate) fn count_modifies(list: &[Edit]) -> usize
    ensures { result ≡ modifies_in list.now }
{
    let mut count = 0;
    'list: for edit in list {
        if is_modify(edit) {
            count += 1;
        }
    }
    count
}

fn is_add(edit: &Edit) -> bool
    ensures { result ≡ is_add edit.now.word }
{
    matches!(edit.word, EditWord::Add)
}

fn is_modify(edit: &Edit) -> bool
    ensures { result ≡ is_modify edit.now.word }
{
    matches!(edit.word, EditWord::Modify | EditWord::ModifyStrict)
}
