//! The exact-match cache of a board.
//!
//! # What?
//!
//! Packets of one connection have one key, and come in trains. So before a board looks among its megaflows, it asks a
//! small table by the whole key: which entry decided the last frame with this very key? (The microflow cache of Pfaff et
//! al., "The Design and Implementation of Open vSwitch", NSDI 2015, section 4.1; the EMC of Open vSwitch's
//! lib/dpif-netdev.c.) A hit costs one or two probes, however many masks the megaflows have.
//!
//! The cache has 8192 *slots*. A slot is empty, or has a key and the number of an entry. A key may stand in two of
//! them, which two parts of its hash name, so that two connections that share a slot needn't drive each other out.
//!
//! # What is promised
//!
//! Contracts see an `ExactCache` as the slots that were written: a list as in the definition of the cache in
//! `spec_board`, each slot number at most once. Their order plays no part.
//!
//! - A `HashedKey` has the hash of its key, by its type: `HashedKey::of` hashes the key, and a look answers the same, in
//!   less time where the cache has the hash at hand. No contract speaks of that time.
//! - `new` has no slot. It takes all memory that the cache will ever take, so that no later call can fail.
//! - `look` answers the key with its hash, and the entry that `cached` names for it: that of the first of its slots that
//!   holds the key.
//! - After `put` each slot holds what it does after `with_cached`: the key is put where it stands already; else where
//!   its first or its second slot is empty; else in place of the key in its first slot. `with_cached` puts a slot in
//!   front of a list and leaves the older one of that number behind, so the lists differ; `AreSameSlots` says that what
//!   each slot holds is the same (`specs/SameSlots`).
//! - Caches with the same slots name the same entries, and have the same slots after the same key is put
//!   (`proofs/SameSlots`). So whoever keeps the slots by the definition may ask the cache in their place.
//!
//! A slot may name an entry that is live no more: nothing is taken out as entries go. Numbers of entries are never used
//! again, so whoever asks tests whether the number is live, and takes one that isn't for a miss.
//!
//! # How
//!
//! What the slots keep stands in one vector, in the order of their first writes. An index beside it has for each slot
//! the place there, or says that there is none, and a *tag*: 16 bits of the hash of the key that is kept, none of
//! which tells a slot. What is kept is read only where the tag is that of the key's hash, and the key only where the
//! whole hashes are equal. So a look for a key that isn't there reads two items of the index, and hardly ever more.
//!
//! The hash takes about half of the time of a look. So `look` answers the key with its hash (`HashedKey`), which `put`
//! is given, and a key that is looked up and then put is hashed once at most. Most keys that the cache has aren't hashed.
//!
//! For that there are 4096 *hints* beside the slots, each of which tells one place of the vector, or none, and the
//! *mark* of the key that is there. The addresses and ports of a key, joined and multiplied once, tell which hint is
//! its own, and its mark. Where the hint has this mark and the key at that place is this one, the hash that is kept
//! with it is its hash. Else it is hashed, and the attempt was in vain: some 25 instructions. `put` has the key's hint
//! tell where the key is kept. Keys that share a hint take it from one another, and nothing rests on it: whatever it
//! tells, keys are compared.
//!
//! With an entry stands where it was *seen*, a number that `put` is given, and that `look` hands on where a hint found the
//! key. It saves whoever keeps the entries a hash, and nothing here rests on it.
//!
//! A key that its hint finds in its first slot is answered at once: it was compared once, and no slot is read. One that
//! it finds in its second slot is looked for in both like any other, since nothing says here that the first doesn't hold
//! it too.
//!
//! `new` makes room for all slots, which is 1.6 MB, and 50 MB for 32 boards. But it writes only the index, 32 kB, and
//! the hints, 16 kB, and what is never written the system doesn't have to provide. A run of few connections writes the
//! beginning of the vector, where an array by the numbers of the slots would be written in all its parts.
//!
//! What is kept tells its slot, and the index has that place for this slot and no other (`IsCache` in `specs/Kept`). So
//! there are never more than the slots have room for: one that was never written finds room, and one that was is written
//! in its place.
//!
//! # What is left to others
//!
//! Which entries are live, and when a key is put.
#![tactic(auto)]

mod cache;
mod exact_look;
mod hashed_key;
mod hints;
mod kept;
mod slots;
mod threads;

pub use cache::ExactCache;
pub use exact_look::ExactLook;
pub use hashed_key::HashedKey;
