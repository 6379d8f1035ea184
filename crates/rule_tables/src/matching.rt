ghost use Rattle.std.specs.Prelude.{◌≡◌};
ghost use Rattle.spec_keys.specs.Keys.{masked};
ghost use Rattle.ovs_fields.specs.Packed.{numbers, bits};

use ovs_fields::{Key, Mask, agree, covers};

/// What a rule states of a packet: the numbers of the key, at the bits of the mask.
///
/// It is normalised: the key's bits outside the mask are 0, so that equal matches are equal numbers.
#[derive(Clone, Copy, PartialEq, Eq, Hash)]
pub struct Match {
    pub key: Key,
    pub mask: Mask,
    pub ghost normalised: { masked (numbers key) (bits mask) ≡ numbers key },
}

impl Match {
    ghost use Rattle.rule_tables.specs.Views.{match_view};
    ghost use Rattle.spec_tables.specs.Rules as tables;
    ghost use Rattle.spec_tables.specs.Rules.{is_within};
    ghost use Rattle.spec_keys.specs.Keys.{none};

    /// The match of every packet.
    #[tactic(auto, unfolding(spec_keys::specs::Keys::masked, spec_keys::specs::Keys::none))]
    pub fn any() -> Match
        ensures { match_view result ≡ record { key = none; mask = none } }
    {
        Match {
            key: Key::zero(),
            mask: Mask::none(),
        }
    }

    /// Whether it is the other match or one more specific: it states every bit that the other states, alike.
    pub(crate) fn is_within(&self, other: &Match) -> bool
        ensures { result ≡ is_within (match_view self.now) (match_view other.now) }
    {
        covers(&self.mask, &other.mask) && agree(&self.key, &other.key, &other.mask)
    }
}
