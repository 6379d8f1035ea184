//! The translation of a packet through the flow tables, with the bits of its key that decided it.
//!
//! # What?
//!
//! A packet that no cache knows is translated: its key runs through the flow tables, and what comes of it is a list of
//! datapath actions (NSDI 2015, section 4.2). The datapath keeps that list in a megaflow, for every packet that can't be
//! told apart from the first one by what the translation looked at. So beside the actions a translation has to say which
//! bits of the key it consulted, in its lookups and in its actions: each of them, since else the megaflow is wrong for some
//! packet, and no others, since else there are more megaflows than need be.
//!
//! # What is promised
//!
//! `translate` answers a `Translated`: the key, the version of the tables, both lists of the definition `pipe` of
//! `spec_xlate`, and a mask with exactly the bits of the definition `consulted`. It does so for every key, all tables
//! whose rules can be run (`pipe_model`'s `AreRunnable`), and every list of ports, under the same three limits as the
//! plain interpreter.
//!
//! Of a `Translated` callers learn what a megaflow needs (`IsWildcardSound` of `pipe_model`): where the packet's own key is
//! clean, every clean key that agrees with it on the mask has the same translation, and consults the same bits. A key is
//! clean where metadata and registers are 0, as they are in the key of each frame. Of other keys it need not hold: what a
//! translation reads of registers that were set isn't in the mask, which has none of their bits.
//!
//! The only error is out of memory, and then nothing is left behind. Where what is made fits in the lists that were handed
//! in, no memory is taken.
//!
//! `plain` gives both lists alone: each lookup is a scan of the rules of a version, without a mask, a cache or an index. So
//! it is what `translate` can be held against.
//!
//! # How
//!
//! The run is that of the plain interpreter, `pipe_model`'s `translate_by`, and its notes are a mask (`switch`): each lookup
//! is the classifier's, which adds the bits that it consults as it finds the rule, and before each action its bits are added
//! too (`consulting`):
//!
//! - A read consults the bits that are read.
//! - A write consults, whole, the fields that say whether the packet is what the write needs, and where it is so the bits
//!   that may change and the source of a copy.
//! - VLAN tags are consulted whole by whatever reads, writes, pushes or pops one.
//! - An output consults nothing but the field that its port is read from, if there is one. The ingress port, to which
//!   `in_port` sends and `flood` doesn't, is in every mask, as are the Ethernet type, and of an IP packet whether it is a
//!   fragment.
//!
//! The mask grows in place along the run, so that no list of masks is kept. Bits of metadata and of registers are left out
//! at the end.
//!
//! The lists are the caller's: whoever hands in those of a translation that is done with (`SpareLists`) has the next one
//! made in the same memory.
//!
//! # What is left to others
//!
//! How rules are found, and which bits a lookup consults, are the classifier's. That the bits are enough is proved in
//! `table_laws`. Of which run a translation is, `run_xlate` has its type say. What becomes of the megaflow is for the
//! caches.
#![tactic(auto)]

mod consulting;
mod fields;
mod registers;
mod scanning;
mod switch;
mod translation;

pub use consulting::consult;
pub use registers::without_registers;
pub use scanning::plain;
pub use translation::translate;
