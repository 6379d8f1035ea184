ghost use Rattle.std.specs.Prelude.{◌≡◌, IfOk};
ghost use Rattle.spec_xlate.specs.Translation.{switch_of, pipe};
ghost use Rattle.spec_xlate.specs.Consulted.{consulted};
ghost use Rattle.ovs_fields.specs.Packed.{numbers};
ghost use Rattle.pipe_model.specs.Runnable.{AreRunnable};
ghost use Rattle.pipe_model.specs.Xlates.{IsWildcardSound};

use crate::consulting::consult_start;
use crate::registers::without_registers;
use crate::switch::Switch;
use ovs_fields::{Key, Mask};
use pipe_model::{SpareLists, Translated, translate_by};
use std::alloc::AllocError;
use tuple_classifier::Tables;

/// What the tables make of a packet of this key, with the bits of the key that were consulted.
///
/// `ports` are the numbers of the switch's ports, in any order. A translation that passes a limit has no datapath actions: a
/// lookup more than 64 deep, a 513th lookup, a 129th datapath action. Its visits and its bits stay.
///
/// It is made in `lists`: no memory is taken where what is made fits in what they have room for. A translation that passes a limit may need more.
///
/// The only error is out of memory, and then nothing is left behind.
pub fn translate(
    lists: SpareLists,
    tables: &Tables<'_>,
    ports: &[u16],
    key: &Key,
) -> Result<Translated, AllocError>
    requires { AreRunnable tables.now.rules }
    ensures key { IfOk result (λ x. x.key ≡ numbers key.now) }
    ensures version { IfOk result (λ x. x.version ≡ tables.now.number) }
    ensures translation { IfOk result (λ x. x.translation ≡ pipe (switch_of tables.now.rules ports.now) (numbers key.now)) }
    ensures mask { IfOk result (λ x. x.mask ≡ consulted (switch_of tables.now.rules ports.now) (numbers key.now)) }
    ensures sound { IfOk result (λ x. IsWildcardSound (switch_of tables.now.rules ports.now) x) }
{
    let sw = Switch { tables, ports };
    let mut mask = Mask::none();
    consult_start(&mut mask, key);
    let made = translate_by(&sw, lists, key, &mut mask)?;
    let mask = without_registers(&mask);
    Ok(Translated::new(*key, tables.version(), made, mask))
}
