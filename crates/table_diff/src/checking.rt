//! Whether a mask decides a translation.
ghost use Rattle.std.specs.Prelude.{◌≡◌, [], ◌∷◌, IfOk};
ghost use Rattle.spec_keys.specs.declared.field_id.FieldId.TheVariants.{InPort};
ghost use Rattle.spec_xlate.specs.Lookup.{union};
ghost use Rattle.spec_xlate.specs.Consulted.{whole};
ghost use Rattle.spec_xlate.specs.Translation.{switch_of, pipe};
ghost use Rattle.ovs_fields.specs.Packed.{numbers, bits};
ghost use Rattle.dump_lines.specs.Live.{IsOfEdits, live_in};
ghost use Rattle.pipe_model.specs.Runnable.{AreRunnable};
ghost use Rattle.pipe_model.specs.Plains.{translation_in};
ghost use Rattle.table_diff.specs.Deciding.{tells_all};

use crate::finding::found;
use crate::telling::tells_winner;
use ovs_fields::{FieldId, Key, Mask, covers};
use pipe_model::{Found, Lookups, Plain, SpareLists, translate_by};
use rule_tables::{OfAction, VersionedRules};
use std::alloc::{AllocError, Global};
use xlate_pipeline::consult;

/// A mask, and whether it decided each step so far.
#[derive(Clone, Copy)]
pub(crate) struct Checked {
    pub(crate) mask: Mask,
    pub(crate) fine: bool,
}

/// The tables of the last version, each lookup in which is a scan, and the ports.
#[derive(Clone, Copy)]
pub(crate) struct Checking<'a> {
    pub(crate) rules: &'a VersionedRules,
    pub(crate) ports: &'a [u16],
}

impl Lookups for Checking<'_> {
    ghost use Rattle.table_diff.specs.Checking.{switch_in, CanCheck, Check, check_of, checked};

    type Notes = Checked;

    ghost switch = { switch_in };

    ghost can_run = { CanCheck };

    ghost Noted = { Check };

    ghost noted = { check_of };

    ghost after = { checked };

    fn ports(&self) -> &[u16] {
        self.ports
    }

    fn find<'a>(
        &'a self,
        _depth: u32,
        table: u8,
        key: &Key,
        notes: &mut Checked,
    ) -> Option<Found<'a>> {
        let won = self.rules.scan(self.rules.version(), table, key);
        let told = tells_winner(self.rules, table, key, won, &notes.mask);
        notes.fine = notes.fine & told;
        found(self.rules, table, key, won)
    }

    fn note(&self, action: OfAction, key: &Key, notes: &mut Checked) {
        let mut consulted = Mask::none();
        consult(&mut consulted, key, action);
        notes.fine = notes.fine & covers(&notes.mask, &consulted);
    }
}

/// All bits of the port where a packet comes in.
pub(crate) fn port_bits() -> Mask
    ensures { bits result ≡ union (whole InPort ∷ []) }
{
    let mut mask = Mask::none();
    mask.add(FieldId::InPort, 0xffff);
    mask
}

/// What the last version makes of a packet of a key, and whether a mask decides each step of that.
pub(crate) fn check(
    alloc: Global,
    rules: &VersionedRules,
    ports: &[u16],
    key: &Key,
    mask: &Mask,
) -> Result<(Plain, bool), AllocError>
    requires of_edits { IsOfEdits rules.now }
    requires runnable { AreRunnable (live_in rules.now) }
    ensures translation { IfOk result (λ made.
        translation_in made.0 ≡ pipe (switch_of (live_in rules.now) ports.now) (numbers key.now)) }
    ensures told { IfOk result (λ made.
        made.1 ≡ tells_all (bits mask.now) (switch_of (live_in rules.now) ports.now) (numbers key.now)) }
{
    let mut checked = Checked {
        mask: *mask,
        fine: covers(mask, &port_bits()),
    };
    let sw = Checking { rules, ports };
    let made = translate_by(&sw, SpareLists::new(alloc), key, &mut checked)?;
    Ok((made, checked.fine))
}
