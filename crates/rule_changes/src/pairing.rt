//! Pairs of rules that both versions have.
ghost use Rattle.std.specs.Prelude.{◌≡◌, true, false, List, IfOk, IfSome, OnOk};
ghost use Rattle.spec_tables.specs.Rules as tables;
ghost use Rattle.table_laws.specs.Members.{Among};
ghost use Rattle.dump_lines.specs.Live.{IsOfEdits, live_in};
ghost use Rattle.rule_changes.specs.Pairs.{IsPair, KeepOrder, ArePairs};
ghost use Rattle.rule_changes.specs.Twins.{AreTwins, DontClash};
ghost use Rattle.rule_changes.specs.declared.pair.Pair.{Pair};

use crate::live_rule::{LiveRule, live_rule};
use crate::pair::Pair;
use crate::partners::{Partners, partner_of, partners};
use crate::twins::{are_same_actions, is_same_match};
use ovs_fields::{agree, and};
use rule_tables::VersionedRules;
use std::alloc::{AllocError, Global};

/// Whether two live rules are the same but for their numbers and cookies.
fn are_twins(a: &LiveRule<'_>, b: &LiveRule<'_>) -> bool
    ensures { result ≡ true → AreTwins a.now.rule.now a.now.actions.now b.now.rule.now b.now.actions.now }
{
    (a.rule.table == b.rule.table)
        & ((a.rule.priority == b.rule.priority)
            & (is_same_match(&a.rule.matching, &b.rule.matching)
                & are_same_actions(a.actions, b.actions)))
}

/// The pair of the rules of these numbers, if they are one.
fn pair_of(old: &VersionedRules, new: &VersionedRules, first: u32, second: u32) -> Option<Pair>
    requires old_edits { IsOfEdits old.now }
    requires new_edits { IsOfEdits new.now }
    ensures { IfSome result (IsPair (live_in old.now) (live_in new.now)) }
{
    let a = live_rule(old, first)?;
    let b = live_rule(new, second)?;
    if !are_twins(&a, &b) {
        return None;
    }
    Some(Pair {
        old: first,
        new: second,
        table: a.rule.table,
        priority: a.rule.priority,
    })
}

/// Whether a packet may meet both of two rules, and they don't do the same.
fn may_clash(a: &LiveRule<'_>, b: &LiveRule<'_>) -> bool
    ensures { result ≡ false → DontClash a.now.rule.now a.now.actions.now b.now.rule.now b.now.actions.now }
{
    let (p, q) = (&a.rule.matching, &b.rule.matching);
    agree(&p.key, &q.key, &and(&p.mask, &q.mask)) & !are_same_actions(a.actions, b.actions)
}

/// Whether the order of two pairs of one priority was turned, and a packet may meet the rules of both, which don't do
/// the same.
fn turned(old: &VersionedRules, p: &Pair, q: &Pair) -> bool
    requires { IsOfEdits old.now }
    ensures { result ≡ false → KeepOrder (live_in old.now) p.now q.now }
{
    if !((p.old < q.old)
        & ((q.new < p.new) & ((p.priority == q.priority) & (p.table == q.table))))
    {
        return false;
    }
    match (live_rule(old, p.old), live_rule(old, q.old)) {
        (Some(a), Some(b)) => may_clash(&a, &b),
        _ => true,
    }
}

/// Whether a pair keeps the order of others.
fn fits(old: &VersionedRules, pairs: &[Pair], p: &Pair) -> bool
    requires { IsOfEdits old.now }
    ensures after { result ≡ true → (q : Pair) → Among q pairs.now → KeepOrder (live_in old.now) p.now q }
    ensures before { result ≡ true → (q : Pair) → Among q pairs.now → KeepOrder (live_in old.now) q p.now }
{
    'pairs: for q in pairs {
        if turned(old, p, q) | turned(old, q, p) {
            return false;
        }
    }
    true
}

/// Adds a pair to others, where it keeps their order.
fn add(old: &VersionedRules, pairs: &mut Vec<Pair>, pair: Pair) -> Result<(), AllocError>
    requires { IsOfEdits old.now }
    ensures { (ss : List tables.Rule) → IsPair (live_in old.now) ss pair → ArePairs (live_in old.now) ss pairs.old.items
        → OnOk result (ArePairs (live_in old.now) ss pairs.new.items) }
{
    if fits(old, pairs, &pair) {
        pairs.push(pair)?;
    }
    Ok(())
}

/// The pair of the rule of a number and the one that may be it, if they are one.
fn found(old: &VersionedRules, new: &VersionedRules, numbers: &Partners, first: u32) -> Option<Pair>
    requires old_edits { IsOfEdits old.now }
    requires new_edits { IsOfEdits new.now }
    ensures { IfSome result (IsPair (live_in old.now) (live_in new.now)) }
{
    let rule = old.rule(first)?;
    let second = partner_of(numbers, rule)?;
    pair_of(old, new, first, second)
}

/// Pairs of the rules that both versions have. Rules whose order was turned, where that may matter, are in none.
pub(crate) fn pairs_of(
    alloc: Global,
    old: &VersionedRules,
    new: &VersionedRules,
) -> Result<Vec<Pair>, AllocError>
    requires old_edits { IsOfEdits old.now }
    requires new_edits { IsOfEdits new.now }
    ensures { IfOk result (λ v. ArePairs (live_in old.now) (live_in new.now) v.items) }
{
    let numbers = partners(alloc, new)?;
    let mut pairs = Vec::new(alloc);
    'numbers: for before in 0..old.edits() {
        if let Some(pair) = found(old, new, &numbers, before + 1) {
            add(old, &mut pairs, pair)?;
        }
    }
    Ok(pairs)
}
