ghost use Rattle.std.specs.Prelude.{◌≡◌, ◌+◌, ◌<◌, ◌≤◌, ◌^◌, ℕ, Some, None, IsSome, IfOk, OnOk, OnErr, length, map};
ghost use Rattle.ovs_fields.specs.Packed.{numbers, bits};
ghost use Rattle.pipe_model.specs.Plains.{translation_in};
ghost use Rattle.spec_board.specs.State as states;
ghost use Rattle.spec_board.specs.State.{State, opening};
ghost use Rattle.std.specs.Option.{option_map};
ghost use Rattle.spec_board.specs.Results.{entry_of, numbers_of, covering, looked, put_of};
ghost use Rattle.spec_board.specs.Effects.{credited};
ghost use Rattle.port_caches.specs.Sums.{IsCountable, total_of};
ghost use Rattle.spec_board.specs.Cache.{cached, with_cached};
ghost use Rattle.exact_cache.specs.SameSlots.{AreSameSlots};
ghost use Rattle.board_steps.specs.StepViews.{settled_view};
ghost use Rattle.port_caches.specs.Views.{AreCachesOf, IsHeld, actions_at, entry_view};
ghost use Rattle.port_caches.specs.Steps.{AreRules, CanHit, CanPut, CanSettle, IsCredited, IsHit, IsPut, IsSame, IsSettled};

use crate::entries::{displace, judged, named_by, new_entry, pay};
use crate::lists::{HeldList, WrittenList, hold, list_for, push_list, reserve_lists};
use crate::stats::Totals;
use board_steps::{EntryNumbers, Settled};
use exact_cache::{ExactCache, HashedKey};
use megaflow_table::Megaflows;
use ovs_fields::{Key, Mask};
use pipe_model::{Plain, SpareLists};
use spec_actions::DpAction;
use spec_board::{Looked, PutDone};
use std::alloc::{AllocError, Global};
use std::marker::Model;

/// The caches of one ingress port.
#[derive(Drop)]
pub struct PortCaches {
    alloc: Global,
    flows: Megaflows,
    /// How many entries were made.
    made: u32,
    exact: ExactCache,
    totals: Totals,
    /// The lists of actions. No two entries name the same one.
    lists: Vec<HeldList>,
}

/// A key that was looked up: with its hash, and what knows it.
#[derive(Clone, Copy)]
pub struct KeyLook<'a> {
    pub key: HashedKey<'a>,
    pub found: Looked,
    /// Where the entry was seen that the exact-match cache names. It only saves time.
    pub seen: usize,
}

/// What decides a frame that hits an entry: the entry's version, and the place of its actions.
#[derive(Clone, Copy)]
pub struct EntryHit {
    pub version: u32,
    pub list: usize,
    /// Where the entry was seen. It only saves time.
    pub seen: usize,
}

/// A frame that was settled: what was done beside deciding it, and the place of its list of actions.
#[derive(Drop)]
pub struct SettledFrame {
    pub settled: Settled,
    pub list: usize,
}

/// An entry that was revalidated: what became of it, and lists that aren't needed any more.
#[derive(Drop)]
pub struct Revalidated {
    pub done: PutDone,
    pub lists: SpareLists,
}

impl Model for PortCaches {
    ghost use Rattle.port_caches.specs.Views.{Caches};

    ghost Value = { Caches };

    ghost use Rattle.port_caches.specs.Kept.{caches_in, IsKept};

    ghost view = { caches_in };

    ghost invariant = { IsKept };
}

impl PortCaches {
    /// Caches with nothing in them, for at most so many entries and for rules that are counted from 1 to `rules`. The
    /// only error is out of memory.
    pub fn new(alloc: Global, limit: u32, rules: u32) -> Result<PortCaches, AllocError>
        ensures empty { IfOk result (λ c. (frames : ℕ) → AreCachesOf c (opening frames)) }
        ensures limit { IfOk result (λ c. c.limit ≡ limit) }
        ensures rules { IfOk result (λ c. c.rules ≡ rules) }
    {
        let exact = ExactCache::new(alloc)?;
        let totals = Totals::new(alloc, rules)?;
        Ok(PortCaches {
            alloc,
            flows: Megaflows::new(alloc, limit),
            made: 0,
            exact,
            totals,
            lists: Vec::new(alloc),
        })
    }

    /// The most entries that there may be.
    pub fn limit(&self) -> u32
        ensures { result ≡ self.now.limit }
    {
        self.flows.limit()
    }

    /// The entries.
    pub fn entries(&self) -> &Megaflows
        ensures { self.now.entries ≡ map (entry_view self.now.lists) result.now.entries }
    {
        &self.flows
    }

    /// The numbers of the entries, in rising order.
    pub fn numbers(&self) -> &[u32]
        ensures { result.now ≡ numbers_of self.now.entries }
    {
        self.flows.numbers()
    }

    /// The key of a live entry; `None` exactly where no entry of this number is live.
    pub fn key_of(&self, number: u32) -> Option<&Key>
        ensures { option_map (λ k. numbers k.now) result
            ≡ option_map (λ e. e.key) (entry_of number self.now.entries) }
    {
        match self.flows.get(number) {
            Some(entry) => Some(&entry.key),
            None => None,
        }
    }

    /// The actions of a live entry.
    pub fn entry_actions(&self, number: u32) -> &[DpAction]
        requires { IsSome (entry_of number self.now.entries) }
        ensures { option_map (λ e. e.actions) (entry_of number self.now.entries) ≡ Some result.now }
    {
        let (_, list) = named_by(&self.flows, number);
        self.actions(list as usize)
    }

    /// The totals of rules.
    pub fn totals(&self) -> &Totals
        ensures rules { length result.now ≡ self.now.rules }
        ensures totals { result.now ≡ self.now.totals }
    {
        &self.totals
    }

    /// The actions of a list.
    pub fn actions(&self, list: usize) -> &[DpAction]
        requires { list < length self.now.lists }
        ensures { result.now ≡ actions_at self.now.lists list }
    {
        self.lists[list].actions.as_slice()
    }

    /// What knows a key: the exact-match cache, where it names a live entry; else the entry that covers the key. Answers
    /// the key with its hash, which isn't made anew where the exact-match cache has it at hand. It takes no memory.
    pub fn look<'a>(&self, key: &'a Key) -> KeyLook<'a>
        ensures key { result.key.key.now ≡ key.now }
        ensures found { (s : State) → AreCachesOf self.now s
            → result.found ≡ looked (numbers key.now) s }
    {
        let exact = self.exact.look(key);
        KeyLook {
            key: exact.key,
            found: self.known(key, exact.entry, exact.seen),
            seen: exact.seen,
        }
    }

    /// A frame of this length in bytes and this time in nanoseconds is decided by an entry, which was seen at a place. It
    /// takes no memory.
    pub fn hit(&mut self, number: u32, seen: usize, length: u32, time: u64) -> EntryHit
        requires { CanHit number length self.old }
        ensures { IsHit number length time result.version result.list self.old self.new }
    {
        let hit = self.flows.hit(number, seen, length, time);
        let list = hit.actions as usize;
        hold(&mut self.lists, list);
        EntryHit {
            version: hit.version,
            list,
            seen: hit.seen,
        }
    }

    /// The exact-match cache keeps that an entry covers a key, and where it was seen. It takes no memory.
    pub fn remember(&mut self, key: HashedKey<'_>, number: u32, seen: usize)
        ensures slots { AreSameSlots self.new.slots
            (with_cached (numbers key.entry.key.now) number self.old.slots) }
        ensures rest { self.new ≡ record self.old { slots = self.new.slots } }
    {
        self.exact.put(key, number, seen);
    }

    /// A frame of this length in bytes and this time in nanoseconds is settled by the translation of its key under a
    /// version, whose mask is this one: each rule visited is credited with it at once. Where no entry covers the key,
    /// and those that don't overlap the new one are fewer than the limit, an entry is made, and those that it
    /// overlaps are paid and dropped.
    ///
    /// There is room for `keep` lists afterwards. The only error is out of memory, and then nothing but the room
    /// changed.
    pub fn settle(
        &mut self,
        key: &Key,
        version: u32,
        made: Plain,
        mask: &Mask,
        length: u32,
        time: u64,
        keep: usize,
    ) -> Result<SettledFrame, AllocError>
        requires rules { AreRules self.old.rules made.visits }
        requires few { self.old.made + 1 < 2 ^ 32 }
        requires fits { CanSettle (numbers key.now) (bits mask.now) version (translation_in made) length time self.old }
        ensures settled { IfOk result (λ r. IsSettled (numbers key.now) (bits mask.now) version (translation_in made) length time self.old (settled_view r.settled) self.new) }
        ensures list { IfOk result (λ r. IsHeld self.new.lists r.list made.actions) }
        ensures room { OnOk result (keep ≤ self.new.room) }
        ensures err { OnErr result (IsSame self.old self.new) }
    {
        reserve_lists(&mut self.lists, keep.saturating_add(1))?;
        match self.flows.find(key) {
            Some(number) => {
                let list = self.credit_frame(made, length);
                Ok(SettledFrame {
                    settled: Settled::Present(number),
                    list,
                })
            }
            None => self.settle_anew(key, version, made, mask, length, time),
        }
    }

    /// Makes room for so many lists. The only error is out of memory; nothing but the room changes.
    pub fn reserve(&mut self, lists: usize) -> Result<(), AllocError>
        ensures same { IsSame self.old self.new }
        ensures room { OnOk result (lists ≤ self.new.room) }
    {
        reserve_lists(&mut self.lists, lists)
    }

    /// An entry is revalidated at a time in nanoseconds, by the translation of its key under a version, whose mask is
    /// this one: it is paid, and dropped where it was unused for ten seconds or where the mask has a bit that its own
    /// lacks; else it has the translation. Lists that aren't needed then are given back. It takes no memory.
    pub fn put(
        &mut self,
        number: u32,
        version: u32,
        made: Plain,
        mask: &Mask,
        clock: u64,
    ) -> Revalidated
        requires live { IsSome (entry_of number self.old.entries) }
        requires room { 1 ≤ self.old.room }
        requires rules { AreRules self.old.rules made.visits }
        requires fits { CanPut number (bits mask.now) version (translation_in made) clock self.old }
        ensures { IsPut number (bits mask.now) version (translation_in made) clock self.old result.done self.new }
    {
        let done = self.judge(number, &made, mask, clock);
        pay(&mut self.flows, &mut self.totals, number);
        let (_, own) = named_by(&self.flows, number);
        match done {
            PutDone::Idle | PutDone::Removed => {
                self.flows.remove(number);
                let lists = made.into_spare();
                Revalidated { done, lists }
            }
            PutDone::Kept => {
                let before = self.flows.change(number, version, own, made.visits);
                let lists = SpareLists::of(made.actions, before);
                Revalidated { done, lists }
            }
            PutDone::Replaced => {
                let WrittenList { place, spare } = list_for(
                    self.alloc,
                    &mut self.lists,
                    own as usize,
                    made.actions,
                );
                let before = self
                    .flows
                    .change(number, version, place as u32, made.visits);
                let lists = SpareLists::of(spare, before);
                Revalidated { done, lists }
            }
        }
    }
}

// What calls are made of.
impl PortCaches {
    /// What knows a key for which the exact-match cache names this entry, which was seen at a place.
    fn known(&self, key: &Key, named: Option<u32>, seen: usize) -> Looked
        requires { named ≡ cached self.now.slots (numbers key.now) }
        ensures { (s : State) → AreCachesOf self.now s → result ≡ looked (numbers key.now) s }
    {
        if let Some(number) = named {
            if self.flows.get_seen(number, seen).is_some() {
                return Looked::Exact(number);
            }
        }
        match self.flows.find(key) {
            Some(number) => Looked::Mega(number),
            None => Looked::Miss,
        }
    }

    /// A frame is decided by a translation: its rules are credited, and its actions are a list that stays.
    fn credit_frame(&mut self, made: Plain, length: u32) -> usize
        requires room { 1 ≤ self.old.room }
        requires rules { AreRules self.old.rules made.visits }
        requires countable { (rule : ℕ) → IsCountable (credited made.visits 1 length (total_of self.old.totals) rule) }
        ensures { IsCredited (translation_in made) length self.old result self.new }
    {
        let list = push_list(&mut self.lists, made.actions, true);
        self.totals
            .credit(made.visits.as_slice(), 1, u64::from(length));
        list
    }

    /// Settles a frame whose key no entry covers.
    fn settle_anew(
        &mut self,
        key: &Key,
        version: u32,
        made: Plain,
        mask: &Mask,
        length: u32,
        time: u64,
    ) -> Result<SettledFrame, AllocError>
        requires uncovered { covering (numbers key.now) self.old.entries ≡ None }
        requires room { 1 ≤ self.old.room }
        requires rules { AreRules self.old.rules made.visits }
        requires few { self.old.made + 1 < 2 ^ 32 }
        requires fits { CanSettle (numbers key.now) (bits mask.now) version (translation_in made) length time self.old }
        ensures settled { IfOk result (λ r. IsSettled (numbers key.now) (bits mask.now) version (translation_in made) length time self.old (settled_view r.settled) self.new) }
        ensures list { IfOk result (λ r. IsHeld self.new.lists r.list made.actions) }
        ensures room { OnOk result (self.old.room ≤ self.new.room + 1) }
        ensures err { OnErr result (IsSame self.old self.new) }
    {
        let overlapped = self.flows.overlaps(key, mask)?;
        if self.flows.len() - overlapped.len() >= self.flows.limit() as usize {
            let list = self.credit_frame(made, length);
            return Ok(SettledFrame {
                settled: Settled::Full,
                list,
            });
        }
        let dropped = EntryNumbers::new(self.alloc, overlapped)?;
        self.flows.reserve(mask)?;
        self.totals
            .credit(made.visits.as_slice(), 1, u64::from(length));
        let list = push_list(&mut self.lists, made.actions, true);
        self.made += 1;
        let entry = new_entry(
            self.made,
            key,
            mask,
            version,
            list as u32,
            made.visits,
            time,
        );
        displace(&mut self.flows, &mut self.totals, dropped.as_slice(), entry);
        Ok(SettledFrame {
            settled: Settled::Installed {
                no: self.made,
                dropped,
            },
            list,
        })
    }

    /// What becomes of an entry that is revalidated.
    fn judge(&self, number: u32, made: &Plain, mask: &Mask, clock: u64) -> PutDone
        requires { IsSome (entry_of number self.now.entries) }
        ensures { (s : State) (e : states.Entry) → s.clock ≡ clock → entry_of number self.now.entries ≡ Some e
            → result ≡ put_of e (translation_in made.now) (bits mask.now) s }
    {
        let Some(entry) = self.flows.get(number) else {
            unreachable!()
        };
        let own = self.lists[entry.actions as usize].actions.as_slice();
        judged(entry, own, made, mask, clock)
    }
}
