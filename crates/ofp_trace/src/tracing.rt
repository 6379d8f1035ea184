ghost use Rattle.std.specs.Prelude.{◌≡◌, All, IfOk};
ghost use Rattle.spec_xlate.specs.Translation.{switch_of, pipe};
ghost use Rattle.spec_xlate.specs.Consulted.{consulted};
ghost use Rattle.ovs_fields.specs.Packed.{numbers};
ghost use Rattle.pipe_model.specs.Runnable.{AreRunnable};
ghost use Rattle.spec_tools.specs.Paths.{path_of, last_of};
ghost use Rattle.ofp_trace.specs.Winners.{HasLiveWinner};

use crate::path::Path;
use crate::watched::Watched;
use ovs_fields::Key;
use pipe_model::{SpareLists, Translated, run_through};
use spec_tools::Lookup;
use std::alloc::{AllocError, Global};
use tuple_classifier::Tables;
use xlate_pipeline::translate;

/// What the tables do to a packet, told step by step.
#[derive(Drop)]
pub struct Traced {
    /// The lookups that its translation makes, in their order.
    pub path: Vec<Lookup>,
    /// The packet's key where its translation ends.
    pub last: Key,
    /// What comes of it, and the bits that it consults.
    pub translated: Translated,
}

/// What the tables do to a packet of this key.
///
/// `ports` are the numbers of the switch's ports, in any order. A translation that passes a limit has no datapath actions: a
/// lookup more than 64 deep, a 513th lookup, a 129th datapath action. The lookups that it made before are told.
///
/// The only error is out of memory, and then nothing is left behind.
pub fn trace(
    alloc: Global,
    tables: &Tables<'_>,
    ports: &[u16],
    key: &Key,
) -> Result<Traced, AllocError>
    requires { AreRunnable tables.now.rules }
    ensures path { IfOk result (λ t.
        t.path.items ≡ path_of (switch_of tables.now.rules ports.now) (numbers key.now)) }
    ensures winners { IfOk result (λ t. All (HasLiveWinner tables.now.rules) t.path.items) }
    ensures last { IfOk result (λ t.
        numbers t.last ≡ last_of (switch_of tables.now.rules ports.now) (numbers key.now)) }
    ensures key { IfOk result (λ t. t.translated.key ≡ numbers key.now) }
    ensures version { IfOk result (λ t. t.translated.version ≡ tables.now.number) }
    ensures translation { IfOk result (λ t.
        t.translated.translation ≡ pipe (switch_of tables.now.rules ports.now) (numbers key.now)) }
    ensures mask { IfOk result (λ t.
        t.translated.mask ≡ consulted (switch_of tables.now.rules ports.now) (numbers key.now)) }
{
    let translated = translate(SpareLists::new(alloc), tables, ports, key)?;
    let mut path = Path::new(alloc)?;
    let sw = Watched { tables, ports };
    let ended = run_through(&sw, SpareLists::new(alloc), key, &mut path)?;
    Ok(Traced {
        path: path.into_lookups(),
        last: ended.key,
        translated,
    })
}
