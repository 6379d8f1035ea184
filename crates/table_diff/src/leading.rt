//! Bits that may decide which way a packet is led, whatever is written over. Whether they do is checked, so nothing is
//! proved of the choice.
ghost use Rattle.std.specs.Prelude.{◌≡◌};
ghost use Rattle.std.specs.Option.{option_map};
ghost use Rattle.spec_tables.specs.Rules.{rules_in, winner};
ghost use Rattle.ovs_fields.specs.Packed.{numbers};
ghost use Rattle.dump_lines.specs.Live.{IsOfEdits, live_in};
ghost use Rattle.pipe_model.specs.Runnable.{AreRunnable};

use crate::finding::found;
use crate::path::Path;
use crate::telling::to_beat;
use ovs_fields::{Key, Mask};
use pipe_model::{Found, Lookups, SpareLists, translate_by};
use rule_tables::{OfAction, VersionedRules};
use std::alloc::{AllocError, Global};

/// Has all packets agree on bits that decide which rule of a table wins.
fn state_winner(path: &mut Path<'_>, rules: &VersionedRules, table: u8, key: &Key, from: u16) {
    let version = rules.version();
    for before in 0..rules.edits() {
        let number = before + 1;
        if rules.live(version, number) {
            if let Some(rule) = rules.rule(number) {
                if rule.table == table && rule.priority >= from {
                    path.state_match(key, &rule.matching);
                }
            }
        }
    }
}

/// The tables of the last version and the ports, whose steps add bits to the mask of a way.
#[derive(Clone, Copy)]
pub(crate) struct Leading<'a> {
    pub(crate) rules: &'a VersionedRules,
    pub(crate) ports: &'a [u16],
}

impl<'a> Lookups for Leading<'a> {
    ghost use Rattle.table_diff.specs.Leading.{switch_in, CanLead};

    type Notes = Path<'a>;

    ghost switch = { switch_in };

    ghost can_run = { CanLead };

    ghost Noted = { Unit {0} };

    ghost noted = { λ _. tt };

    ghost after = { λ _ _. tt };

    fn ports(&self) -> &[u16] {
        self.ports
    }

    fn find<'b>(
        &'b self,
        _depth: u32,
        table: u8,
        key: &Key,
        path: &mut Path<'a>,
    ) -> Option<Found<'b>> {
        let won = self.rules.scan(self.rules.version(), table, key);
        state_winner(
            path,
            self.rules,
            table,
            key,
            to_beat(self.rules, table, key, won),
        );
        found(self.rules, table, key, won)
    }

    fn note(&self, action: OfAction, key: &Key, path: &mut Path<'a>) {
        path.state_action(key, action);
        path.act(action, key);
    }
}

/// A mask with bits added that may decide which way a packet of a key is led.
pub(crate) fn lead(
    alloc: Global,
    rules: &VersionedRules,
    ports: &[u16],
    key: &Key,
    mask: &Mask,
) -> Result<Mask, AllocError>
    requires of_edits { IsOfEdits rules.now }
    requires runnable { AreRunnable (live_in rules.now) }
{
    let mut path = Path::begin(alloc, ports, mask)?;
    let sw = Leading { rules, ports };
    let _made = translate_by(&sw, SpareLists::new(alloc), key, &mut path)?;
    Ok(*path.mask())
}
