//! What a version does to the packet of a key, and to the others that agree with it on a mask.
ghost use Rattle.std.specs.Prelude.{IfOk};
ghost use Rattle.spec_keys.specs.Fields.{register_fields};
ghost use Rattle.spec_keys.specs.Keys.{IsClean};
ghost use Rattle.spec_xlate.specs.Consulted.{without};
ghost use Rattle.spec_xlate.specs.Translation.{switch_of};
ghost use Rattle.ovs_fields.specs.Packed.{numbers, bits};
ghost use Rattle.dump_lines.specs.Live.{IsOfEdits, live_in};
ghost use Rattle.pipe_model.specs.Runnable.{AreRunnable};
ghost use Rattle.table_diff.specs.Ways.{IsWay};

use crate::checking::check;
use crate::following::follow_path;
use action_text::translation_is_within_fields;
use dp_actions::ActionList;
use ovs_fields::{Key, Mask};
use rule_tables::{OfAction, VersionedRules};
use std::alloc::{AllocError, Global};

/// What a version does to the packet of a key, and to the others that agree with it on a mask.
#[derive(Drop)]
pub(crate) struct Way {
    /// What is done to the packet itself.
    pub(crate) actions: ActionList,
    /// Whether that is done to the others too.
    pub(crate) told: bool,
    /// Whether the others are led the same way, where it is not told.
    pub(crate) fine: bool,
    /// The flow actions that are carried out on that way.
    pub(crate) path: Vec<OfAction>,
    /// The bits of the frame which is sent last that are the same for all.
    pub(crate) sent: Mask,
}

/// What the last version does to a packet of a key, and to those that agree with it on a mask, but for registers. The
/// only error is out of memory.
pub(crate) fn way_of(
    alloc: Global,
    rules: &VersionedRules,
    ports: &[u16],
    key: &Key,
    mask: &Mask,
) -> Result<Way, AllocError>
    requires of_edits { IsOfEdits rules.now }
    requires runnable { AreRunnable (live_in rules.now) }
    requires clean { IsClean (numbers key.now) }
    ensures { IfOk result (IsWay (switch_of (live_in rules.now) ports.now) (numbers key.now)
        (without register_fields (bits mask.now))) }
{
    translation_is_within_fields();
    let (made, told) = check(alloc, rules, ports, key, mask)?;
    let (path, fine, sent) = follow_path(alloc, rules, ports, key, mask)?;
    Ok(Way {
        actions: made.actions,
        told,
        fine,
        path,
        sent,
    })
}
