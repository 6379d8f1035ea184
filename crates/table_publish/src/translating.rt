ghost use Rattle.std.specs.Prelude.{◌≡◌, ◌≤◌, IfOk};
ghost use Rattle.ovs_fields.specs.Packed.{numbers};

use crate::seer::Seer;
use ovs_fields::Key;
use run_case::{Case, RunData};
use run_xlate::Xlated;
use std::alloc::AllocError;
use std::sync::Wait;
use table_versions::{RunTables, SpareLists};

/// Translates a packet of a key under the newest version that is published. It is made in `lists`, as `Tables::translate`
/// makes it.
///
/// The only error is out of memory.
pub fn translate_newest<C: Case, T: RunTables<C>, R: Wait>(
    rt: &R,
    seer: Seer<C, T>,
    run: &RunData<C>,
    key: &Key,
    lists: SpareLists,
) -> (Seer<C, T>, Result<Xlated<C>, AllocError>)
    ensures publication { result.0.publication ≡ seer.publication }
    ensures newer { seer.version ≤ result.0.version }
    ensures key { IfOk result.1 (λ x. x.key ≡ numbers key.now) }
    ensures version { IfOk result.1 (λ x. x.version ≡ result.0.version) }
{
    let guard = seer.enter(rt);
    let made = guard.tables().translate(run, key, lists);
    (guard.leave(), made)
}
