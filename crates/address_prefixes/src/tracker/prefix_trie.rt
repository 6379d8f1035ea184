ghost use Rattle.std.specs.Prelude.{◌≡◌, ◌≤◌, ◌<◌, ◌+◌, ◌^◌, ℕ, length, OnOk, OnErr};
ghost use Rattle.std.specs.Int.{bit_at};
ghost use Rattle.spec_xlate.specs.Lookup.{deciding};
ghost use Rattle.address_prefixes.specs.Looks.{begun};
ghost use Rattle.address_prefixes.specs.Prefixes.{no_prefixes, prefix_at, times, HasOneMore};

use crate::tracker::found::Found;
use crate::tracker::insert::insert_in;
use crate::tracker::look::look_in;
use crate::tracker::remove::remove_in;
use crate::tracker::trie::Trie;
use std::alloc::{AllocError, Global};
use std::marker::Model;

/// A list of prefixes of numbers of one width, in which each may stand often.
#[derive(Drop)]
pub struct PrefixTrie {
    root: Trie,
    width: u32,
    alloc: Global,
}

impl Model for PrefixTrie {
    ghost use Rattle.address_prefixes.specs.Prefixes.{Prefixes};

    ghost Value = { Prefixes };

    ghost use Rattle.address_prefixes.specs.Sound.{prefixes_at, IsSound};

    ghost view = { prefixes_at };

    ghost invariant = { IsSound };
}

impl PrefixTrie {
    /// No prefixes of numbers of a width from 1 to 128. It takes no memory.
    pub fn new(alloc: Global, width: u32) -> PrefixTrie
        requires some { 0 < width }
        requires wide { width ≤ 128 }
        ensures { result ≡ no_prefixes width }
    {
        PrefixTrie {
            alloc,
            width,
            root: Trie::Empty,
        }
    }

    /// The width of the numbers.
    pub fn width(&self) -> u32
        ensures { result ≡ self.now.width }
    {
        self.width
    }

    /// Adds the prefix of the `len` leading bits of a number once, where `len` is from 1 to the width. The only error is
    /// out of memory, and then the list stays.
    pub fn insert(&mut self, value: u128, len: u32) -> Result<(), AllocError>
        requires fits { value < 2 ^ self.old.width }
        requires some { 0 < len }
        requires within { len ≤ self.old.width }
        requires few { length self.old.list + 1 < 2 ^ 32 }
        ensures width { self.new.width ≡ self.old.width }
        ensures ok { OnOk result
            (HasOneMore (prefix_at self.old.width value len) self.old.list self.new.list) }
        ensures longer { OnOk result (length self.new.list ≡ length self.old.list + 1) }
        ensures err { OnErr result (self.new ≡ self.old) }
    {
        insert_in(self.alloc, self.width, &mut self.root, value, len)
    }

    /// Takes the prefix of the `len` leading bits of a number out once, which is there. It takes no memory.
    pub fn remove(&mut self, value: u128, len: u32)
        requires fits { value < 2 ^ self.old.width }
        requires there { 0 < times (prefix_at self.old.width value len) self.old.list }
        ensures width { self.new.width ≡ self.old.width }
        ensures less { HasOneMore (prefix_at self.old.width value len) self.new.list self.old.list }
        ensures shorter { length self.new.list + 1 ≡ length self.old.list }
    {
        remove_in(self.width, &mut self.root, value, len);
    }

    /// What the prefixes tell of a number. It takes no memory.
    pub fn look(&self, value: u128) -> Found
        requires { value < 2 ^ self.now.width }
        ensures lengths { (n : ℕ) → bit_at result.lengths n ≡ begun self.now.width value n self.now.list }
        ensures bits { result.bits ≡ deciding self.now.width value self.now.list }
    {
        look_in(self.width, &self.root, value)
    }
}
