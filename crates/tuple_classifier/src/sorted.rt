ghost use Rattle.std.specs.Prelude.{◌≡◌, length, ◌<◌, ◌-◌, IfSome, ◌≤◌, ◌+◌, ◌==◌, ℕ, [], All, nat_le, if◌then◌else◌, vec_len, vec_capacity, OnOk, IsNone};
ghost use Rattle.std.specs.List.{list_any, insert};
ghost use Rattle.std.specs.List.Sorted.{IsNonDecreasingBy};
ghost use Rattle.tuple_classifier.specs.Numbers.{times, numbers_in, number_at, count_at, times_by};

use std::alloc::{AllocError, Global};

/// A number, and how often it was put in. Where that is more than a count can say, the number has several entries.
#[derive(Clone, Copy)]
pub(crate) struct Counted {
    pub(crate) number: u16,
    pub(crate) count: u32,
}

/// Numbers in rising order, each as often as it was put in. Equal numbers share an entry, so that one more or one less of
/// a number that stays moves nothing.
#[derive(Drop)]
pub(crate) struct SortedNumbers {
    pub(crate) items: Vec<Counted>,
    pub ghost rising: { IsNonDecreasingBy (λ c. c.number) items.items },
    pub ghost counted: { All (λ c. 0 < c.count) items.items },
}

impl SortedNumbers {
    pub(crate) fn new(alloc: Global) -> SortedNumbers
        ensures { numbers_in result.items.items ≡ [] }
    {
        SortedNumbers {
            items: Vec::new(alloc),
        }
    }

    /// Makes room for one more.
    pub(crate) fn reserve(&mut self) -> Result<(), AllocError>
        ensures items { numbers_in self.new.items.items ≡ numbers_in self.old.items.items }
        ensures room { OnOk result (vec_len self.new.items < vec_capacity self.new.items) }
    {
        self.items.reserve(1)
    }

    /// Puts a number in, for which there is room.
    pub(crate) fn insert(&mut self, number: u16)
        requires { vec_len self.old.items < vec_capacity self.old.items }
        ensures { (n : ℕ)
            → times n (numbers_in self.new.items.items)
            ≡ times n (numbers_in self.old.items.items) + (if number == n then 1 else 0) }
    {
        let beyond = first_beyond(&self.items, number);
        match raised_count(&self.items, beyond, number) {
            Some(count) => set_count(&mut self.items, beyond - 1, count),
            None => insert_entry(&mut self.items, beyond, number),
        }
    }

    /// Takes a number out once, which is there.
    pub(crate) fn remove(&mut self, number: u16)
        requires { 0 < times number (numbers_in self.old.items.items) }
        ensures { (n : ℕ)
            → times n (numbers_in self.new.items.items) + (if number == n then 1 else 0)
            ≡ times n (numbers_in self.old.items.items) }
    {
        let place = place_of(&self.items, number);
        let count = self.items[place].count;
        if count > 1 {
            set_count(&mut self.items, place, count - 1);
        } else {
            self.items.remove(place);
        }
    }

    /// Whether one of the numbers is at least this one.
    pub(crate) fn reaches(&self, floor: u16) -> bool
        ensures { result ≡ list_any (λ n. nat_le floor n) (numbers_in self.now.items.items) }
    {
        match self.greatest() {
            Some(greatest) => greatest >= floor,
            None => false,
        }
    }

    /// The greatest of the numbers, if there is one.
    pub(crate) fn greatest(&self) -> Option<u16>
        ensures some { IfSome result
            (λ n. (floor : ℕ) → list_any (λ m. nat_le floor m) (numbers_in self.now.items.items)
            ≡ nat_le floor n) }
        ensures none { IsNone result → numbers_in self.now.items.items ≡ [] }
    {
        let count = self.items.len();
        if count == 0 {
            return None;
        }
        Some(self.items[count - 1].number)
    }
}

/// The place of the first entry whose number is more than this one, or how many entries there are.
fn first_beyond(items: &[Counted], number: u16) -> usize
    requires { IsNonDecreasingBy (λ c. c.number) items.now }
    ensures within { result ≤ length items.now }
    ensures up_to { (k : ℕ) → k < result → number_at k items.now ≤ number }
    ensures beyond { (k : ℕ) → result ≤ k → k < length items.now
        → number < number_at k items.now }
{
    items.partition_point(|item| item.number <= number)
}

/// The place of the last entry of a number, which is there.
fn place_of(items: &[Counted], number: u16) -> usize
    requires rising { IsNonDecreasingBy (λ c. c.number) items.now }
    requires counted { All (λ c. 0 < c.count) items.now }
    requires there { 0 < times number (numbers_in items.now) }
    ensures within { result < length items.now }
    ensures number { number_at result items.now ≡ number }
{
    first_beyond(items, number) - 1
}

/// The count with one more of the entry in front of a place, if that is of this number and its count can rise.
fn raised_count(items: &[Counted], beyond: usize, number: u16) -> Option<u32>
    requires { beyond ≤ length items.now }
    ensures { IfSome result
        (λ count. (0 < beyond) × (number_at (beyond - 1) items.now ≡ number)
        × (count_at (beyond - 1) items.now + 1 ≡ count)) }
{
    if beyond == 0 {
        return None;
    }
    let before = &items[beyond - 1];
    if before.number == number {
        before.count.checked_add(1)
    } else {
        None
    }
}

/// Inserts an entry for a number that was put in once, for which there is room.
fn insert_entry(items: &mut Vec<Counted>, place: usize, number: u16)
    requires within { place ≤ length items.old.items }
    requires room { vec_len items.old < vec_capacity items.old }
    ensures { items.new.items
        ≡ insert items.old.items place (record { number = number; count = 1 }) }
{
    let Ok(()) = items.insert(place, Counted { number, count: 1 }) else {
        unreachable!()
    };
}

/// Sets the count of the entry at a place.
fn set_count(items: &mut [Counted], place: usize, count: u32)
    requires within { place < length items.old }
    requires some { 0 < count }
    ensures length { length items.new ≡ length items.old }
    ensures rising { IsNonDecreasingBy (λ c. c.number) items.old
        → IsNonDecreasingBy (λ c. c.number) items.new }
    ensures counted { All (λ c. 0 < c.count) items.old → All (λ c. 0 < c.count) items.new }
    ensures times { let own = number_at place items.old in (n : ℕ)
        → times n (numbers_in items.new) + times_by n own (count_at place items.old)
        ≡ times n (numbers_in items.old) + times_by n own count }
{
    items[place].count = count;
}
