//! The steps of a board.
ghost use Rattle.std.specs.Prelude.{◌≡◌, ◌⊎◌, ◌<◌, ◌+◌, IfOk, IfErr, IsTrue, OnOk, OnErr, Some, None, true, false};
ghost use Rattle.ovs_fields.specs.Packed.{numbers};
ghost use Rattle.exact_cache.specs.SameSlots.{AreSameSlots};
ghost use Rattle.spec_board.specs.declared.looked.Looked.TheVariants.{Miss};
ghost use Rattle.spec_board.specs.declared.faults.SettleFault.TheVariants as settle_faults;
ghost use Rattle.spec_board.specs.declared.faults.BeginFault.TheVariants as begin_faults;
ghost use Rattle.spec_board.specs.Steps as steps;
ghost use Rattle.spec_board.specs.Results.{entry_of, looked};
ghost use Rattle.spec_board.specs.Effects.{is_among, key_of_entry};
ghost use Rattle.spec_board.specs.Refusals.{open_fault, look_fault, settle_fault, begin_fault, put_fault, end_fault};
ghost use Rattle.board_laws.specs.Entries.{IsFound};
ghost use Rattle.pmd_board.specs.BoardView.{Appends, HasSettled, IsLawful, state_of};
ghost use Rattle.pmd_board.specs.Remembered.{slots_after};

use crate::board::Board;
use crate::place::Place;
use crate::sweep_list::SweepList;
use board_steps::Step;
use port_caches::{HashedKey, KeyLook, PortCaches, Revalidated};
use run_case::{Case, Keyed};
use run_xlate::Xlated;
use spec_board::{BeginFault, EndFault, LookFault, Looked, OpenFault, PutFault, SettleFault};
use std::alloc::AllocError;

// The exact-match cache keeps which entry a look found among the megaflows, and where it was seen.
fn remember(caches: &mut PortCaches, key: HashedKey<'_>, found: Looked, seen: usize)
    ensures slots { AreSameSlots caches.new.slots
        (slots_after found (numbers key.entry.key.now) caches.old.slots) }
    ensures rest { caches.new ≡ record caches.old { slots = caches.new.slots } }
{
    if let Looked::Mega(number) = found {
        caches.remember(key, number, seen);
    }
}

impl<C: Case> Board<C> {
    /// Opens a block, the next one, once all is done in the block before it.
    pub fn open_block(&mut self, block: u32) -> Result<(), OpenFault>
        ensures opened { IfOk result (λ _. Appends C.run self.old (steps.Open block) self.new) }
        ensures refused { IfErr result
            (λ f. (open_fault C.run self.old.port (state_of C.run self.old) block ≡ Some f)
            × (self.new ≡ self.old)) }
    {
        if let Some(fault) = self.open_refusal(block) {
            return Err(fault);
        }
        self.open(block);
        Ok(())
    }

    fn open(&mut self, block: u32)
        requires { open_fault C.run self.old.port (state_of C.run self.old) block ≡ None }
        ensures { Appends C.run self.old (steps.Open block) self.new }
    {
        self.block = block;
        self.journal.push_reserved(Step::Open { block });
    }

    /// Looks up a frame of its port, the next one: in the exact-match cache, then among the megaflows. A hit decides the
    /// frame as the entry has it; a miss leaves it pending.
    pub fn look(&mut self, at: &Keyed<C>) -> Result<Looked, LookFault>
        requires { at.now.port ≡ self.old.port }
        ensures looked { IfOk result
            (λ r. Appends C.run self.old (steps.Look at.now.place r) self.new) }
        ensures refused { IfErr result
            (λ f. (look_fault C.run self.old.port (state_of C.run self.old) at.now.place ≡ Some f)
            × (self.new ≡ self.old)) }
        ensures lawful { IsLawful C.run self.new }
    {
        if let Some(fault) = self.look_refusal(at) {
            self.laws_hold();
            return Err(fault);
        }
        let KeyLook { key, found, seen } = self.caches.look(&at.key);
        match found {
            Looked::Exact(number) | Looked::Mega(number) => self.hit(at, key, number, seen, found),
            Looked::Miss => self.miss(at),
        }
        self.laws_hold();
        Ok(found)
    }

    // The frame is decided by the entry that its look found, which was seen at a place.
    fn hit(&mut self, at: &Keyed<C>, key: HashedKey<'_>, number: u32, seen: usize, found: Looked)
        requires port { at.now.port ≡ self.old.port }
        requires key { key.key.now ≡ at.now.key }
        requires may { look_fault C.run self.old.port (state_of C.run self.old) at.now.place
            ≡ None }
        requires found { looked (numbers at.now.key) (state_of C.run self.old) ≡ found }
        requires number { IsFound found number }
        ensures { Appends C.run self.old (steps.Look at.now.place found) self.new }
    {
        let hit = self.caches.hit(number, seen, at.length, at.time);
        remember(&mut self.caches, key, found, hit.seen);
        self.next += 1;
        self.clock = self.clock.max(at.time);
        self.places[at.place as usize - 1] = Place::Decided {
            version: hit.version,
            list: hit.list,
        };
        self.journal.push_reserved(Step::Look {
            place: at.place,
            result: found,
        });
    }

    fn miss(&mut self, at: &Keyed<C>)
        requires port { at.now.port ≡ self.old.port }
        requires may { look_fault C.run self.old.port (state_of C.run self.old) at.now.place
            ≡ None }
        requires missed { looked (numbers at.now.key) (state_of C.run self.old) ≡ Miss }
        ensures { Appends C.run self.old (steps.Look at.now.place Miss) self.new }
    {
        self.next += 1;
        self.clock = self.clock.max(at.time);
        self.pending += 1;
        self.places[at.place as usize - 1] = Place::Pending;
        self.journal.push_reserved(Step::Look {
            place: at.place,
            result: Looked::Miss,
        });
    }

    /// Decides a pending frame of its port, by the translation of its key under a version. A megaflow is installed where
    /// none covers the key and fewer than the limit don't overlap it; those that overlap it are dropped. `last_settled`
    /// tells afterwards what was done.
    ///
    /// It takes memory. The translation is given up where it refuses.
    pub fn settle(&mut self, at: &Keyed<C>, made: Xlated<C>) -> Result<(), SettleFault>
        requires port { at.now.port ≡ self.old.port }
        requires key { made.key ≡ numbers at.now.key }
        ensures settled { IfOk result
            (λ _. HasSettled C.run self.old at.now.place made.version self.new) }
        ensures refused { IfErr result
            (λ f. (f ≡ settle_faults.OutOfMemory)
            ⊎ (settle_fault C.run (state_of C.run self.old) at.now.place made.version ≡ Some f)) }
        ensures unchanged { IfErr result (λ _. self.new ≡ self.old) }
        ensures lawful { IsLawful C.run self.new }
    {
        if let Some(fault) = self.settle_refusal(at.place, made.version()) {
            self.laws_hold();
            return Err(fault);
        }
        let filled = self.fill(at, made);
        self.laws_hold();
        match filled {
            Ok(()) => Ok(()),
            Err(_) => Err(SettleFault::OutOfMemory),
        }
    }

    fn fill(&mut self, at: &Keyed<C>, made: Xlated<C>) -> Result<(), AllocError>
        requires port { at.now.port ≡ self.old.port }
        requires key { made.key ≡ numbers at.now.key }
        requires may { settle_fault C.run (state_of C.run self.old) at.now.place made.version
            ≡ None }
        ensures filled { OnOk result
            (HasSettled C.run self.old at.now.place made.version self.new) }
        ensures unchanged { OnErr result (self.new ≡ self.old) }
    {
        let version = made.version();
        let (made, mask) = made.into_parts();
        let room = self.room_needed();
        self.journal.reserve(room + 1)?;
        let settled = self.caches.settle(
            &at.key,
            version,
            made,
            &mask,
            at.length,
            at.time,
            self.listed.len(),
        )?;
        self.listed.forget_dropped(&settled.settled);
        self.newest = self.newest.max(version);
        self.pending -= 1;
        self.places[at.place as usize - 1] = Place::Decided {
            version,
            list: settled.list,
        };
        self.journal.push_reserved(Step::Settle {
            place: at.place,
            version,
            result: settled.settled,
        });
        Ok(())
    }

    /// Begins a sweep at a version: it is to put all megaflows. It takes memory for the sweep.
    pub fn begin(&mut self, version: u32) -> Result<(), BeginFault>
        ensures begun { IfOk result (λ _. Appends C.run self.old (steps.Begin version) self.new) }
        ensures refused { IfErr result
            (λ f. (f ≡ begin_faults.OutOfMemory)
            ⊎ (begin_fault C.run (state_of C.run self.old) version ≡ Some f)) }
        ensures unchanged { IfErr result (λ _. self.new ≡ self.old) }
    {
        if let Some(fault) = self.begin_refusal(version) {
            return Err(fault);
        }
        match self.start(version) {
            Ok(()) => Ok(()),
            Err(_) => Err(BeginFault::OutOfMemory),
        }
    }

    fn start(&mut self, version: u32) -> Result<(), AllocError>
        requires { begin_fault C.run (state_of C.run self.old) version ≡ None }
        ensures begun { OnOk result (Appends C.run self.old (steps.Begin version) self.new) }
        ensures unchanged { OnErr result (self.new ≡ self.old) }
    {
        let room = self.room_needed();
        self.journal
            .reserve(room + self.caches.numbers().len() + 2)?;
        let listed = SweepList::of(self.alloc, self.caches.numbers())?;
        self.caches.reserve(listed.len())?;
        self.listed = listed;
        self.newest = self.newest.max(version);
        self.floor = self.floor.max(version);
        self.sweeping = true;
        self.journal.push_reserved(Step::Begin { version });
        Ok(())
    }

    /// Revalidates a megaflow that the sweep has yet to put, by the translation of its key under a version: its rules are
    /// credited with what it owes them. Where it wasn't used for ten seconds, or the translation consulted a bit that its
    /// mask lacks, it is dropped; else it has the translation.
    ///
    /// Where the sweep doesn't list the megaflow, the translation may be of any key. It is given up where it refuses; else
    /// lists that aren't needed any more are given back. It takes no memory.
    pub fn put(&mut self, number: u32, made: Xlated<C>) -> Result<Revalidated, PutFault>
        requires { IsTrue (is_among (state_of C.run self.old).listed number)
            → made.key ≡ key_of_entry (entry_of number (state_of C.run self.old).entries) }
        ensures put { IfOk result
            (λ r. Appends C.run self.old (steps.Put number made.version r.done) self.new) }
        ensures refused { IfErr result
            (λ f. (put_fault C.run (state_of C.run self.old) number made.version ≡ Some f)
            × (self.new ≡ self.old)) }
        ensures lawful { IsLawful C.run self.new }
    {
        if let Some(fault) = self.put_refusal(number, made.version()) {
            self.laws_hold();
            return Err(fault);
        }
        let revalidated = self.revalidate(number, made);
        self.laws_hold();
        Ok(revalidated)
    }

    fn revalidate(&mut self, number: u32, made: Xlated<C>) -> Revalidated
        requires key { made.key ≡ key_of_entry (entry_of number (state_of C.run self.old).entries) }
        requires may { put_fault C.run (state_of C.run self.old) number made.version ≡ None }
        ensures { Appends C.run self.old (steps.Put number made.version result.done) self.new }
    {
        let version = made.version();
        let (made, mask) = made.into_parts();
        let revalidated = self.caches.put(number, version, made, &mask, self.clock);
        self.listed.forget(number);
        self.newest = self.newest.max(version);
        self.journal.push_reserved(Step::Put {
            entry: number,
            version,
            result: revalidated.done,
        });
        revalidated
    }

    /// Ends the sweep that runs, once no megaflow is left to put.
    pub fn end(&mut self) -> Result<(), EndFault>
        ensures ended { IfOk result (λ _. Appends C.run self.old steps.End self.new) }
        ensures refused { IfErr result
            (λ f. (end_fault (state_of C.run self.old) ≡ Some f) × (self.new ≡ self.old)) }
    {
        if !self.sweeping {
            return Err(EndFault::NotSweeping);
        }
        let left = self.listed.len();
        if left != 0 {
            return Err(EndFault::Left(left as u32));
        }
        self.stop();
        Ok(())
    }

    fn stop(&mut self)
        requires { end_fault (state_of C.run self.old) ≡ None }
        ensures { Appends C.run self.old steps.End self.new }
    {
        self.done = self.floor;
        self.sweeping = false;
        self.journal.push_reserved(Step::End);
    }
}
