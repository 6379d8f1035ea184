//! What was changed between two versions.
ghost use Rattle.std.specs.Prelude.{◌≡◌, List, Some, map, IfOk, OnOk};
ghost use Rattle.spec_tables.specs.Rules as tables;
ghost use Rattle.spec_tables.specs.Live.{rule_numbered};
ghost use Rattle.table_laws.specs.Members.{Among};
ghost use Rattle.rule_tables.specs.Views.{match_view};
ghost use Rattle.pipe_model.specs.Runnable.{IsAmong, AreRunnable};
ghost use Rattle.dump_lines.specs.Live.{IsOfEdits, live_in};
ghost use Rattle.rule_changes.specs.Pairs.{IsCovered};
ghost use Rattle.rule_changes.specs.Changes.{AreAllChanges};

use crate::changes::Changes;
use crate::kept::kept_bits;
use crate::live_rule::live_rule;
use crate::pair::{Pair, Side, is_paired};
use crate::pairing::pairs_of;
use rule_tables::{Match, VersionedRules};
use std::alloc::{AllocError, Global};

/// Adds the match of the live rule of a number, if there is one and it is in none of the pairs.
fn set_aside(
    aside: &mut Vec<Match>,
    rules: &VersionedRules,
    side: Side,
    pairs: &[Pair],
    number: u32,
) -> Result<(), AllocError>
    requires { IsOfEdits rules.now }
    ensures kept { OnOk result ((m : tables.Match) → Among m (map match_view aside.old.items)
        → Among m (map match_view aside.new.items)) }
    ensures covered { OnOk result ((r : tables.Rule) → rule_numbered number (live_in rules.now) ≡ Some r
        → r.number ≡ number → IsCovered side pairs.now (map match_view aside.new.items) r) }
{
    match live_rule(rules, number) {
        None => Ok(()),
        Some(found) => {
            if is_paired(side, pairs, number) {
                return Ok(());
            }
            aside.push(found.rule.matching)?;
            Ok(())
        }
    }
}

/// Adds the matches of all live rules that are in none of the pairs.
fn set_all_aside(
    aside: &mut Vec<Match>,
    rules: &VersionedRules,
    side: Side,
    pairs: &[Pair],
) -> Result<(), AllocError>
    requires of_edits { IsOfEdits rules.now }
    requires runnable { AreRunnable (live_in rules.now) }
    ensures kept { OnOk result ((m : tables.Match) → Among m (map match_view aside.old.items)
        → Among m (map match_view aside.new.items)) }
    ensures covered { OnOk result ((r : tables.Rule) → IsAmong r (live_in rules.now)
        → IsCovered side pairs.now (map match_view aside.new.items) r) }
{
    'numbers: for before in 0..rules.edits() {
        set_aside(aside, rules, side, pairs, before + 1)?;
    }
    Ok(())
}

/// What was changed between the last versions of the one and of the other.
pub fn changes_of(
    alloc: Global,
    old: &VersionedRules,
    new: &VersionedRules,
) -> Result<Changes, AllocError>
    requires old_edits { IsOfEdits old.now }
    requires new_edits { IsOfEdits new.now }
    requires old_runnable { AreRunnable (live_in old.now) }
    requires new_runnable { AreRunnable (live_in new.now) }
    ensures { IfOk result (AreAllChanges (live_in old.now) (live_in new.now)) }
{
    let pairs = pairs_of(alloc, old, new)?;
    let mut aside = Vec::new(alloc);
    set_all_aside(&mut aside, old, Side::Old, &pairs)?;
    set_all_aside(&mut aside, new, Side::New, &pairs)?;
    let kept = kept_bits(old);
    Ok(Changes { aside, kept })
}
