//! The flow actions that a version carries out on a packet, and whether they are the same for all packets that agree
//! with it on a mask.
ghost use Rattle.std.specs.Prelude.{◌≡◌, IfOk};
ghost use Rattle.spec_actions.specs.Sound.{AreSound};
ghost use Rattle.spec_xlate.specs.Translation.{switch_of};
ghost use Rattle.ovs_fields.specs.Packed.{numbers, bits};
ghost use Rattle.dump_lines.specs.Live.{IsOfEdits, live_in};
ghost use Rattle.pipe_model.specs.Runnable.{AreRunnable};
ghost use Rattle.table_diff.specs.Following.{way_of, sent_bits};

use crate::finding::found;
use crate::path::Path;
use crate::telling::tells_winner;
use ovs_fields::{Key, Mask};
use pipe_model::{Found, Lookups, SpareLists, translate_by};
use rule_tables::{OfAction, VersionedRules};
use std::alloc::{AllocError, Global};

/// The tables of the last version, each lookup in which is a scan, and the ports.
#[derive(Clone, Copy)]
pub(crate) struct Following<'a> {
    pub(crate) rules: &'a VersionedRules,
    pub(crate) ports: &'a [u16],
}

impl<'a> Lookups for Following<'a> {
    ghost use Rattle.table_diff.specs.Following as spec;
    ghost use Rattle.table_diff.specs.Following.{followed};
    ghost use Rattle.table_diff.specs.Paths.{path_view};
    ghost use Rattle.table_diff.specs.Followings.{switch_in, CanFollow};

    type Notes = Path<'a>;

    ghost switch = { switch_in };

    ghost can_run = { CanFollow };

    ghost Noted = { spec.Path };

    ghost noted = { path_view };

    ghost after = { followed };

    fn ports(&self) -> &[u16] {
        self.ports
    }

    fn find<'b>(
        &'b self,
        _depth: u32,
        table: u8,
        key: &Key,
        path: &mut Path<'a>,
    ) -> Option<Found<'b>> {
        let won = self.rules.scan(self.rules.version(), table, key);
        let told = tells_winner(self.rules, table, key, won, path.known());
        path.look(told);
        found(self.rules, table, key, won)
    }

    fn note(&self, action: OfAction, key: &Key, path: &mut Path<'a>) {
        path.act(action, key);
    }
}

/// The flow actions that the last version carries out on a packet of a key, whether the mask decides each step of that,
/// and which bits of the frames that are sent last are the same for all. The only error is out of memory.
pub(crate) fn follow_path(
    alloc: Global,
    rules: &VersionedRules,
    ports: &[u16],
    key: &Key,
    mask: &Mask,
) -> Result<(Vec<OfAction>, bool, Mask), AllocError>
    requires of_edits { IsOfEdits rules.now }
    requires runnable { AreRunnable (live_in rules.now) }
    ensures actions { IfOk result (λ made.
        made.0.items ≡ (way_of (switch_of (live_in rules.now) ports.now) (bits mask.now) (numbers key.now)).actions) }
    ensures fine { IfOk result (λ made.
        made.1 ≡ (way_of (switch_of (live_in rules.now) ports.now) (bits mask.now) (numbers key.now)).fine) }
    ensures sent { IfOk result (λ made. bits made.2
        ≡ sent_bits (way_of (switch_of (live_in rules.now) ports.now) (bits mask.now) (numbers key.now))) }
    ensures sound { IfOk result (λ made. AreSound made.0.items) }
{
    let mut path = Path::begin(alloc, ports, mask)?;
    let sw = Following { rules, ports };
    let _made = translate_by(&sw, SpareLists::new(alloc), key, &mut path)?;
    Ok(path.finish())
}
