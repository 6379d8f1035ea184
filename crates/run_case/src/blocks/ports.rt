ghost use Rattle.std.specs.Prelude.{◌≡◌, ◌<◌, ◌≤◌, ◌^◌, ◌==◌, length, position, slice_get, nat_eq, Some, IfSome, is_some};
ghost use Rattle.std.specs.List.{IsDistinct, list_any};
ghost use Rattle.run_case.specs.Places.{HasPort};

use std::marker::Model;

/// The ports of a run, in the order of the words: at least one, all different.
///
/// A port is a number of 16 bits; it stands at a place that is counted from 0.
#[derive(Drop)]
pub struct Ports(Vec<u16>);

impl Model for Ports {
    ghost use Rattle.std.specs.Prelude.{ℕ, ◌≤◌, ◌^◌, List, length, nat_eq};
    ghost use Rattle.std.specs.List.{IsDistinct};

    ghost Value = { List ℕ };

    ghost view = { λ p. p.0.items };

    ghost invariant = { λ p. (1 ≤ length p.0.items) × (length p.0.items ≤ 2 ^ 16) × IsDistinct nat_eq p.0.items };
}

// Where a port stands among different ones. Mostly they are numbered from 1, in the order of the words; so that is where it
// is looked for first.
fn place_in(list: &[u16], port: u16) -> Option<usize>
    requires { IsDistinct nat_eq list.now }
    ensures { result ≡ position (λ p. p == port) list.now }
{
    let by_number = usize::from(port.saturating_sub(1));
    if by_number < list.len() && list[by_number] == port {
        return Some(by_number);
    }
    list.iter().position(|listed| *listed == port)
}

impl Ports {
    /// The ports of a list. It takes no memory.
    pub fn new(list: Vec<u16>) -> Ports
        requires some { 1 ≤ length list.items }
        requires distinct { IsDistinct nat_eq list.items }
        ensures { result ≡ list.items }
    {
        Ports(list)
    }

    /// How many ports there are, from 1 to 65,536.
    pub fn len(&self) -> u32
        ensures len { result ≡ length self.now }
        ensures some { 1 ≤ result }
        ensures bound { result ≤ 2 ^ 16 }
        ensures distinct { IsDistinct nat_eq self.now }
    {
        self.0.len() as u32
    }

    /// The port at a place, counted from 0.
    pub fn at(&self, place: u32) -> u16
        requires { place < length self.now }
        ensures port { slice_get self.now place ≡ Some result }
        ensures there { HasPort self.now result }
    {
        self.0[place as usize]
    }

    /// The place at which a port stands, counted from 0; `None` where it isn't among the ports.
    ///
    /// It looks where the port stands if they are numbered from 1, and then at one port after the other.
    pub fn find(&self, port: u16) -> Option<u32>
        ensures place { result ≡ position (λ p. p == port) self.now }
        ensures found { is_some result ≡ list_any (λ p. p == port) self.now }
        ensures port { IfSome result (λ place. slice_get self.now place ≡ Some port) }
    {
        match place_in(&self.0, port) {
            Some(place) => Some(place as u32),
            None => None,
        }
    }

    pub fn as_slice(&self) -> &[u16]
        ensures list { result.now ≡ self.now }
        ensures distinct { IsDistinct nat_eq result.now }
    {
        self.0.as_slice()
    }
}
