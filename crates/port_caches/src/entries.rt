//! What is done with entries: over the fields of caches, so that nothing of them is lost to a proof on the way.

ghost use Rattle.std.specs.Prelude.{◌≡◌, ◌++◌, ◌∷◌, ◌+◌, ◌<◌, [], ℕ, Some, All, IsSome, length, false, nat_le};
ghost use Rattle.spec_keys.specs.Keys.{same};
ghost use Rattle.ovs_fields.specs.Packed.{numbers, bits};
ghost use Rattle.pipe_model.specs.Plains.{translation_in};
ghost use Rattle.port_caches.specs.Sums.{IsCountable, total_of};
ghost use Rattle.spec_board.specs.Results as board;
ghost use Rattle.megaflow_table.specs.declared.entry.Entry.{Entry};
ghost use Rattle.megaflow_table.specs.Entries.{ForEntry, changed, entry_of, overlaps, paid};
ghost use Rattle.port_caches.specs.Entries.{IsJudged, unused_entry};
ghost use Rattle.port_caches.specs.Drops.{ArePayable, credited_with, entries_after, totals_after};
ghost use Rattle.port_caches.specs.Steps.{AreRules};

use crate::stats::Totals;
use dp_actions::Visits;
use megaflow_table::{Entry, Megaflows};
use ovs_fields::{Key, Mask, covers};
use pipe_model::Plain;
use spec_actions::DpAction;
use spec_board::PutDone;

/// How long an entry may stand unused before a sweep drops it, in nanoseconds: ten seconds (max-idle of Open vSwitch).
const IDLE_TIME: u64 = 10_000_000_000;

/// An entry that decided no packet yet. Its actions are a place among lists.
pub(crate) fn new_entry(
    number: u32,
    key: &Key,
    mask: &Mask,
    version: u32,
    actions: u32,
    visits: Visits,
    used: u64,
) -> Entry
    ensures { result ≡ unused_entry number key.now mask.now version actions visits used }
{
    Entry {
        number,
        key: *key,
        mask: *mask,
        version,
        actions,
        visits,
        packets: 0,
        bytes: 0,
        owed_packets: 0,
        owed_bytes: 0,
        used,
    }
}

/// The version of an entry, and the place of its actions.
pub(crate) fn named_by(flows: &Megaflows, number: u32) -> (u32, u32)
    requires { IsSome (entry_of number flows.now.entries) }
    ensures { (e : Entry) → entry_of number flows.now.entries ≡ Some e → (result.0 ≡ e.version)
        × (result.1 ≡ e.actions) }
{
    let Some(entry) = flows.get(number) else {
        unreachable!()
    };
    (entry.version, entry.actions)
}

/// The rules of an entry are credited with what it owes.
pub(crate) fn credit_owed(flows: &Megaflows, totals: &mut Totals, number: u32)
    requires live { ForEntry number flows.now.entries (λ e. AreRules (length totals.old) e.visits) }
    requires countable { (rule : ℕ)
        → IsCountable
        (credited_with (entry_of number flows.now.entries) (total_of totals.old) rule) }
    ensures credited { (rule : ℕ)
        → total_of totals.new rule
        ≡ credited_with (entry_of number flows.now.entries) (total_of totals.old) rule }
    ensures rules { length totals.new ≡ length totals.old }
{
    let Some(entry) = flows.get(number) else {
        unreachable!()
    };
    totals.credit(
        entry.visits.as_slice(),
        entry.owed_packets,
        entry.owed_bytes,
    );
}

/// The entries of these numbers are paid and dropped, one after the other. It takes no memory.
fn drop_each(flows: &mut Megaflows, totals: &mut Totals, dropped: &[u32])
    requires live { ArePayable (length totals.old) dropped.now flows.old.entries }
    requires countable { (rule : ℕ)
        → IsCountable (totals_after dropped.now flows.old.entries (total_of totals.old) rule) }
    ensures entries { flows.new.entries ≡ entries_after dropped.now flows.old.entries }
    ensures room { flows.new.room ≡ flows.old.room }
    ensures limit { flows.new.limit ≡ flows.old.limit }
    ensures totals { (rule : ℕ)
        → total_of totals.new rule
        ≡ totals_after dropped.now flows.old.entries (total_of totals.old) rule }
    ensures rules { length totals.new ≡ length totals.old }
{
    'numbers: for number in dropped {
        credit_owed(flows, totals, *number);
        flows.remove(*number);
    }
}

/// An entry takes the place of those of these numbers, which are paid and dropped. It takes no memory.
pub(crate) fn displace(flows: &mut Megaflows, totals: &mut Totals, dropped: &[u32], entry: Entry)
    requires live { ArePayable (length totals.old) dropped.now flows.old.entries }
    requires countable { (rule : ℕ)
        → IsCountable (totals_after dropped.now flows.old.entries (total_of totals.old) rule) }
    requires room { flows.old.room ≡ Some (bits entry.mask) }
    requires new { All (λ e. e.number < entry.number)
        (entries_after dropped.now flows.old.entries) }
    requires free { All (λ e. overlaps (numbers entry.key) (bits entry.mask) e ≡ false)
        (entries_after dropped.now flows.old.entries) }
    ensures entries { flows.new.entries
        ≡ entries_after dropped.now flows.old.entries ++ entry ∷ [] }
    ensures limit { flows.new.limit ≡ flows.old.limit }
    ensures totals { (rule : ℕ)
        → total_of totals.new rule
        ≡ totals_after dropped.now flows.old.entries (total_of totals.old) rule }
    ensures rules { length totals.new ≡ length totals.old }
{
    drop_each(flows, totals, dropped);
    flows.install(entry);
}

/// An entry is paid, and owes nothing then. It takes no memory.
pub(crate) fn pay(flows: &mut Megaflows, totals: &mut Totals, number: u32)
    requires live { ForEntry number flows.old.entries (λ e. AreRules (length totals.old) e.visits) }
    requires countable { (rule : ℕ)
        → IsCountable
        (credited_with (entry_of number flows.old.entries) (total_of totals.old) rule) }
    ensures entries { flows.new.entries ≡ changed number paid flows.old.entries }
    ensures limit { flows.new.limit ≡ flows.old.limit }
    ensures totals { (rule : ℕ)
        → total_of totals.new rule
        ≡ credited_with (entry_of number flows.old.entries) (total_of totals.old) rule }
    ensures rules { length totals.new ≡ length totals.old }
{
    credit_owed(flows, totals, number);
    flows.pay(number);
}

/// Whether an entry was unused for long at a time.
fn is_idle(used: u64, clock: u64) -> bool
    ensures { result ≡ nat_le (used + board.idle_time) clock }
{
    clock >= IDLE_TIME && clock - IDLE_TIME >= used
}

fn are_same_actions(a: &[DpAction], b: &[DpAction]) -> bool
    ensures { result ≡ board.are_same_actions a.now b.now }
{
    a == b
}

fn are_same_visits(a: &[u32], b: &[u32]) -> bool
    ensures { result ≡ same a.now b.now }
{
    a == b
}

/// What becomes of an entry that is revalidated at this time by the translation of its key, whose mask is this one.
pub(crate) fn judged(
    entry: &Entry,
    own: &[DpAction],
    made: &Plain,
    mask: &Mask,
    clock: u64,
) -> PutDone
    ensures { IsJudged entry.now own.now (translation_in made.now) (bits mask.now) clock result }
{
    if is_idle(entry.used, clock) {
        return PutDone::Idle;
    }
    if !covers(&entry.mask, mask) {
        return PutDone::Removed;
    }
    if are_same_actions(own, made.actions.as_slice())
        & are_same_visits(entry.visits.as_slice(), made.visits.as_slice())
    {
        PutDone::Kept
    } else {
        PutDone::Replaced
    }
}
