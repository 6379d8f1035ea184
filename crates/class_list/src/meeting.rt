//! Which rules a packet meets. Nothing is proved of what is noted of that.
ghost use Rattle.std.specs.Prelude.{◌<◌, ◌^◌, IsTrue};
ghost use Rattle.spec_keys.specs.Fields.{width_of};
ghost use Rattle.spec_actions.specs.Sound.{is_sound, is_sound_slice};
ghost use Rattle.class_list.specs.Meetings.{CanMeet};

use named_fields::{Prerequisite, Slice, TAG_BIT, holds, is_full, named};
use ovs_fields::{FieldId, Key, Mask, all_fields, or};
use pipe_model::{Found, Lookups, SpareLists, translate_by};
use rule_tables::{OfAction, VersionedRules};
use std::alloc::{AllocError, Global};
use std::cmp::Ordering;
use table_diff::{add_written, found};
use xlate_pipeline::consult;

/// The bits of a TTL of which one is set where the TTL is not 0 or 1.
const HIGH_BITS: u128 = 0xfe;

/// Which rule a lookup found.
#[derive(Clone, Copy)]
struct Step {
    priority: u16,
    number: u32,
}

impl Step {
    /// How a rule stands to another one of its table: of two that have a packet the lesser one wins.
    fn compare(&self, other: &Step) -> Ordering {
        match other.priority.cmp(&self.priority) {
            Ordering::Equal => self.number.cmp(&other.number),
            order => order,
        }
    }
}

/// Bits of a packet that were copied to a field.
#[derive(Clone, Copy)]
struct Source {
    to: FieldId,
    bits: Mask,
}

/// The bits that a slice has of a packet.
fn bits_read(key: &Key, slice: Slice) -> Mask
    requires { IsTrue (is_sound_slice slice) }
{
    let mut read = Mask::none();
    consult(&mut read, key, OfAction::OutputField(slice));
    read
}

/// What a packet met in the tables of a version.
#[derive(Drop)]
pub(crate) struct Way {
    /// What each lookup found.
    steps: Vec<Option<Step>>,
    /// The bits of the packet that the rules state which it met, and those that tell what special is done to it.
    stated: Mask,
    /// The fields that were written.
    written: Mask,
    /// Where they were written from, as far as they were copied.
    sources: Vec<Source>,
}

impl Way {
    fn new(alloc: Global) -> Way {
        Way {
            steps: Vec::new(alloc),
            stated: Mask::none(),
            written: Mask::none(),
            sources: Vec::new(alloc),
        }
    }

    /// The bits of the packet that made it come that way.
    pub(crate) fn stated(&self) -> &Mask {
        &self.stated
    }

    /// The bits of the packet, as it came in, that these bits are of as it is now.
    fn origins(&self, mask: &Mask) -> Mask {
        let mut bits = Mask::none();
        for field in all_fields() {
            if self.written.get(*field) == 0 {
                bits.add(*field, mask.get(*field));
            }
        }
        for source in self.sources.as_slice() {
            if mask.get(source.to) != 0 {
                bits = or(&bits, &source.bits);
            }
        }
        bits
    }

    fn state(&mut self, mask: &Mask) {
        self.stated = or(&self.stated, &self.origins(mask));
    }

    fn state_bits(&mut self, field: FieldId, bits: u128)
        requires { bits < 2 ^ width_of field }
    {
        let mut mask = Mask::none();
        mask.add(field, bits);
        self.state(&mask);
    }

    fn meet(&mut self, rules: &VersionedRules, won: Option<u32>) {
        let rule = match won {
            None => None,
            Some(number) => rules.rule(number),
        };
        let step = match rule {
            None => None,
            Some(rule) => {
                self.state(&rule.matching.mask);
                Some(Step {
                    priority: rule.priority,
                    number: rule.number,
                })
            }
        };
        // Without it lines may stand in another order, which the check tells.
        let _kept = self.steps.push(step);
    }

    fn act(&mut self, action: OfAction, key: &Key)
        requires { IsTrue (is_sound action) }
    {
        match action {
            OfAction::OutputField(slice) => self.state(&bits_read(key, slice)),
            OfAction::Move { from, to } => {
                let source = Source {
                    to: named(to.name).field,
                    bits: self.origins(&bits_read(key, from)),
                };
                let _kept = self.sources.push(source);
            }
            OfAction::DecTtl => {
                if holds(key, Prerequisite::Ip) & (key.get(FieldId::NwTtl) <= 1) {
                    self.state_bits(FieldId::NwTtl, HIGH_BITS);
                }
            }
            OfAction::PushVlan(_) => {
                if is_full(key) {
                    self.state_bits(FieldId::VlanTci2, u128::from(TAG_BIT));
                }
            }
            _ => {}
        }
        add_written(&mut self.written, action);
    }

    /// How a way stands to another one: of the first steps that aren't the same that one is the lesser whose rule wins,
    /// and a rule wins over none.
    pub(crate) fn compare(&self, other: &Way) -> Ordering {
        for (a, b) in self.steps.iter().zip(other.steps.as_slice()) {
            let order = match (a, b) {
                (None, None) => Ordering::Equal,
                (None, Some(_)) => Ordering::Greater,
                (Some(_), None) => Ordering::Less,
                (Some(x), Some(y)) => x.compare(y),
            };
            match order {
                Ordering::Equal => {}
                order => return order,
            }
        }
        self.steps.len().cmp(&other.steps.len())
    }
}

/// The tables of the last version and the ports.
#[derive(Clone, Copy)]
pub(crate) struct Meeting<'a> {
    pub(crate) rules: &'a VersionedRules,
    pub(crate) ports: &'a [u16],
}

impl Lookups for Meeting<'_> {
    ghost use Rattle.class_list.specs.Meetings.{switch_in, CanMeet};

    type Notes = Way;

    ghost switch = { switch_in };

    ghost can_run = { CanMeet };

    ghost Noted = { Unit {0} };

    ghost noted = { λ _. tt };

    ghost after = { λ _ _. tt };

    fn ports(&self) -> &[u16] {
        self.ports
    }

    fn find<'a>(&'a self, _depth: u32, table: u8, key: &Key, way: &mut Way) -> Option<Found<'a>> {
        let won = self.rules.scan(self.rules.version(), table, key);
        way.meet(self.rules, won);
        found(self.rules, table, key, won)
    }

    fn note(&self, action: OfAction, key: &Key, way: &mut Way) {
        way.act(action, key);
    }
}

/// The way of a packet of a key.
pub(crate) fn way_of(alloc: Global, sw: &Meeting<'_>, key: &Key) -> Result<Way, AllocError>
    requires { CanMeet sw.now }
{
    let mut way = Way::new(alloc);
    let _made = translate_by(sw, SpareLists::new(alloc), key, &mut way)?;
    Ok(way)
}
