//! Bits that may decide a translation. Whether they do is checked, so nothing is proved of the choice.
ghost use Rattle.std.specs.Prelude.{◌≡◌};
ghost use Rattle.std.specs.Option.{option_map};
ghost use Rattle.spec_tables.specs.Rules.{rules_in, winner};
ghost use Rattle.ovs_fields.specs.Packed.{numbers};
ghost use Rattle.dump_lines.specs.Live.{IsOfEdits, live_in};
ghost use Rattle.pipe_model.specs.Runnable.{AreRunnable};

use crate::choosing::add_match;
use crate::finding::found;
use crate::telling::to_beat;
use ovs_fields::{Key, Mask};
use pipe_model::{Found, Lookups, SpareLists, translate_by};
use rule_tables::{OfAction, VersionedRules};
use std::alloc::{AllocError, Global};
use xlate_pipeline::consult;

/// Adds bits that decide which rule of a table wins.
fn add_winner(mask: &mut Mask, rules: &VersionedRules, table: u8, key: &Key, from: u16) {
    let version = rules.version();
    for before in 0..rules.edits() {
        let number = before + 1;
        if rules.live(version, number) {
            if let Some(rule) = rules.rule(number) {
                if rule.table == table && rule.priority >= from {
                    add_match(mask, key, &rule.matching);
                }
            }
        }
    }
}

/// The tables of the last version and the ports, whose steps add bits to a mask.
#[derive(Clone, Copy)]
pub(crate) struct Proposing<'a> {
    pub(crate) rules: &'a VersionedRules,
    pub(crate) ports: &'a [u16],
}

impl Lookups for Proposing<'_> {
    ghost use Rattle.table_diff.specs.Proposing.{switch_in, CanPropose};

    type Notes = Mask;

    ghost switch = { switch_in };

    ghost can_run = { CanPropose };

    ghost Noted = { Unit {0} };

    ghost noted = { λ _. tt };

    ghost after = { λ _ _. tt };

    fn ports(&self) -> &[u16] {
        self.ports
    }

    fn find<'a>(&'a self, _depth: u32, table: u8, key: &Key, mask: &mut Mask) -> Option<Found<'a>> {
        let won = self.rules.scan(self.rules.version(), table, key);
        add_winner(
            mask,
            self.rules,
            table,
            key,
            to_beat(self.rules, table, key, won),
        );
        found(self.rules, table, key, won)
    }

    fn note(&self, action: OfAction, key: &Key, mask: &mut Mask) {
        consult(mask, key, action);
    }
}

/// Adds bits that may decide the translation of a packet of a key.
pub(crate) fn propose(
    alloc: Global,
    rules: &VersionedRules,
    ports: &[u16],
    key: &Key,
    mask: &mut Mask,
) -> Result<(), AllocError>
    requires of_edits { IsOfEdits rules.now }
    requires runnable { AreRunnable (live_in rules.now) }
{
    let sw = Proposing { rules, ports };
    let _made = translate_by(&sw, SpareLists::new(alloc), key, mask)?;
    Ok(())
}
