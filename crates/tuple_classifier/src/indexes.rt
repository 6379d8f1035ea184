ghost use Rattle.std.specs.Prelude.{◌≡◌, ◌++◌, [], ◌∷◌, nat_le, ℕ, List, IsTrue, IsFalse, OnOk};
ghost use Rattle.std.specs.List.{list_any};
ghost use Rattle.spec_tables.specs.Rules.{Rule};
ghost use Rattle.ovs_fields.specs.Packed.{bits};
ghost use Rattle.staged_lookup.specs.Numbered.{AreDistinct, without};
ghost use Rattle.table_laws.specs.Members.{Among};

use crate::sorted::SortedNumbers;
use address_prefixes::MaskPrefixes;
use ovs_fields::Mask;
use std::alloc::{AllocError, Global};

/// What lookups ask of the rules of one mask together, kept so that no answer goes through the rules.
#[derive(Drop)]
pub(crate) struct Indexes {
    pub(crate) prefixes: MaskPrefixes,
    pub(crate) priorities: SortedNumbers,
}

impl Indexes {
    ghost use Rattle.tuple_classifier.specs.Order.{IsNotBelow, HasGreatest};
    ghost use Rattle.tuple_classifier.specs.Indexes.{AreIndexes, HaveRoom, HavePriority};

    /// Those of no rules of a mask. It takes no memory.
    pub(crate) fn new(alloc: Global, mask: &Mask) -> Indexes
        ensures { AreIndexes result (bits mask.now) [] }
    {
        Indexes {
            prefixes: MaskPrefixes::new(mask),
            priorities: SortedNumbers::new(alloc),
        }
    }

    /// Makes room for one more rule. Where it lacks memory they are those of the same rules.
    pub(crate) fn reserve(&mut self) -> Result<(), AllocError>
        ensures same { (mask : List ℕ) (rs : List Rule) → AreIndexes self.old mask rs
            → AreIndexes self.new mask rs }
        ensures room { OnOk result (HaveRoom self.new) }
    {
        self.priorities.reserve()
    }

    /// Adds a rule of this priority, for which there is room.
    pub(crate) fn add(&mut self, priority: u16)
        requires { HaveRoom self.old }
        ensures { (mask : List ℕ) (rs : List Rule) (r : Rule) → AreIndexes self.old mask rs
            → r.priority ≡ priority → AreIndexes self.new mask (rs ++ r ∷ []) }
    {
        self.priorities.insert(priority);
    }

    /// Takes a rule of this priority out.
    pub(crate) fn take(&mut self, priority: u16)
        requires { HavePriority priority self.old }
        ensures { (mask : List ℕ) (rs : List Rule) (r : Rule) → AreIndexes self.old mask rs
            → AreDistinct rs → Among r rs → r.priority ≡ priority
            → AreIndexes self.new mask (without r.number rs) }
    {
        self.priorities.remove(priority);
    }

    /// Whether one of the rules has at least this priority.
    pub(crate) fn reaches(&self, floor: u16) -> bool
        ensures { (mask : List ℕ) (rs : List Rule) → AreIndexes self.now mask rs
            → result ≡ list_any (λ r. nat_le floor r.priority) rs }
    {
        self.priorities.reaches(floor)
    }

    /// The greatest priority of the rules, if there are any.
    pub(crate) fn greatest(&self) -> Option<u16>
        ensures { HasGreatest self.now result }
    {
        self.priorities.greatest()
    }

    /// Whether one of the rules has a greater priority than all of the rules of others.
    pub(crate) fn is_above(&self, other: &Indexes) -> bool
        ensures above { IsTrue result → IsNotBelow self.now other.now }
        ensures not_above { IsFalse result → IsNotBelow other.now self.now }
    {
        match self.priorities.greatest() {
            Some(greatest) => !other.priorities.reaches(greatest),
            None => false,
        }
    }
}
