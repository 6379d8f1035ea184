ghost use Rattle.std.specs.Prelude.{◌≡◌, ◌==◌, not, if◌then◌else◌, Some, None, min};
ghost use Rattle.std.specs.List.{find, list_any, reduce};
ghost use Rattle.spec_xlate.specs.Translation.{is_other_port};
ghost use Rattle.ovs_fields.specs.Packed.{numbers};
ghost use Rattle.pipe_model.specs.Others.{others_from};
ghost use Rattle.pipe_model.specs.States.{without_rules};

use ovs_fields::{FieldId, Key};

/// Whether there is a port but the one where the packet came in.
pub(crate) fn has_others(ports: &[u16], in_port: u16) -> bool
    ensures { result ≡ list_any (λ p. not (p == in_port)) ports.now }
{
    ports.iter().any(|port| *port != in_port)
}

/// The least port from a number on, but for the one where the packet came in.
pub(crate) fn next_other(ports: &[u16], in_port: u16, from: u32) -> Option<u16>
    ensures { result ≡ reduce min (others_from in_port from ports.now) }
{
    ports
        .iter()
        .copied()
        .filter(|port| *port != in_port && u32::from(*port) >= from)
        .min()
}

/// The port of a number, if it is one of the switch by which the packet didn't come in.
pub(crate) fn other_port(ports: &[u16], key: &Key, number: u128) -> Option<u16>
    ensures { result ≡ (if is_other_port (without_rules ports.now) (numbers key.now) number then Some number else None) }
{
    if number == key.get(FieldId::InPort) {
        return None;
    }
    port_of(ports, number)
}

/// The port of a number among these.
fn port_of(ports: &[u16], number: u128) -> Option<u16>
    ensures { result ≡ find (λ p. p == number) ports.now }
{
    ports
        .iter()
        .copied()
        .find(|port| u128::from(*port) == number)
}
