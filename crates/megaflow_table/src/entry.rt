ghost use Rattle.std.specs.Prelude.{◌≡◌};

use dp_actions::Visits;
use ovs_fields::{Key, Mask, agree, and};
use std::mem;

/// A megaflow: it decides every packet whose key agrees with `key` on `mask`.
#[derive(Drop)]
pub struct Entry {
    /// What tells it from the other entries. A later entry has a greater one.
    pub number: u32,
    pub key: Key,
    /// The bits of a key that count.
    pub mask: Mask,
    /// The version of the flow tables that its actions and visits are of.
    pub version: u32,
    /// The place of its list of datapath actions among those of the board.
    pub actions: u32,
    /// The rules that its translation visited.
    pub visits: Visits,
    /// How many packets it decided, and how many bytes they had together.
    pub packets: u64,
    pub bytes: u64,
    /// Those of them that its rules were not credited with yet.
    pub owed_packets: u64,
    pub owed_bytes: u64,
    /// When it last decided a packet, in nanoseconds.
    pub used: u64,
}

impl Entry {
    ghost use Rattle.megaflow_table.specs.Entries.{overlaps, hit_at, changed_to, paid};
    ghost use Rattle.ovs_fields.specs.Packed.{numbers, bits};

    /// Whether some key is covered both by it and by an entry of this key and mask.
    pub fn overlaps(&self, key: &Key, mask: &Mask) -> bool
        ensures { result ≡ overlaps (numbers key.now) (bits mask.now) self.now }
    {
        agree(key, &self.key, &and(mask, &self.mask))
    }

    pub(crate) fn hit(&mut self, length: u32, time: u64)
        ensures { self.new ≡ hit_at length time self.old }
    {
        let length = u64::from(length);
        self.packets = self.packets.saturating_add(1);
        self.bytes = self.bytes.saturating_add(length);
        self.owed_packets = self.owed_packets.saturating_add(1);
        self.owed_bytes = self.owed_bytes.saturating_add(length);
        self.used = time;
    }

    // Answers the visits that it had.
    pub(crate) fn change(&mut self, version: u32, actions: u32, visits: Visits) -> Visits
        ensures changed { self.new ≡ changed_to version actions visits self.old }
        ensures visits { result ≡ self.old.visits }
    {
        self.version = version;
        self.actions = actions;
        mem::replace(&mut self.visits, visits)
    }

    pub(crate) fn pay(&mut self)
        ensures { self.new ≡ paid self.old }
    {
        self.owed_packets = 0;
        self.owed_bytes = 0;
    }
}
