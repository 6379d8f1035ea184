//! The caches of one ingress port: megaflows, the exact-match cache, the actions that both lead to, and what the rules
//! were credited with.
//!
//! # What?
//!
//! A frame of a port is decided by a megaflow, which the exact-match cache may name at once, or by the translation of
//! its key, which then *settles* it and may become a megaflow itself. A sweep *puts* each megaflow under a newer
//! version of the flow tables: it is dropped, kept or given another translation. (Pfaff et al., "The Design and
//! Implementation of Open vSwitch", NSDI 2015, sections 4.2 and 6.) Each of these calls touches several tables at
//! once, and `PortCaches` holds them together.
//!
//! # What is promised
//!
//! `spec_board` defines what a step of a board does to its state, and a call here is promised in its words. Caches
//! are *those of* a state that has the same entries, exact-match slots and totals (`AreCachesOf` in `specs/Views`).
//! An *entry* is a megaflow, by its name in definitions and contracts.
//! Of every state whose caches they are before a call:
//!
//! - `look` answers what the definition answers there, with the key and its hash.
//! - After `hit` they are the caches of the state where that entry decided a frame of this length and time.
//! - After `settle` they are those of the state that the definition's settle leads to, and the answer is that of the
//!   definition: present, full, or installed, with the entries that were dropped. Each rule visited is credited with
//!   the frame at once.
//! - After `put` they are those of the state that the definition's put leads to, with its answer. An entry is paid, by
//!   the visits that it had, before anything else becomes of it. Nothing is said of the lists that it gives back.
//! - `remember` has the slots of the definition's `with_cached`, and `reserve` changes nothing but the room.
//!
//! `hit` and `settle` answer the place of a list of actions. That list has the actions by which the frame was decided,
//! and it stays as it is whatever is called later (`IsHeld`, `KeepsHeld`): so a decided frame is kept as a place, and
//! actions are never copied.
//!
//! Only `new`, `settle` and `reserve` take memory. Where it is lacking, `settle` and `reserve` changed nothing but the
//! room. `put` uses one list of the room, which `settle` leaves as asked by `keep`. It gives back the lists that aren't
//! needed any more, those of the translation or those of the entry before: a sweep makes its next translation in their
//! memory.
//!
//! # How
//!
//! An entry of the table names its list of actions by its place, and no two entries name the same one. `hit` marks the
//! list as *held*. An entry that is given other actions overwrites its own list, unless that is held: then it takes a
//! new one. So there are at most two lists for each decision, however often entries change.
//!
//! There may be 2^32 lists, since entries name them by 32 bits. The room ends there too, and `reserve` and `settle` say
//! that there is no memory.
//!
//! `look` answers a key with its hash (`HashedKey`), which `remember` takes, since a frame that hits a megaflow comes to
//! both. Most keys that the exact-match cache has aren't hashed for it, and nor are the numbers of the entries that it
//! names for them: with each it has where `hit` saw the entry, which `look` tells the next `hit` (`seen`).
//!
//! `settle` asks for all its memory first: the list, the numbers of the entries that the new one overlaps, and the
//! table's room for it. From there on nothing is refused.
//!
//! Calls on several fields are functions of their own over these fields (`entries`, `lists`), since a method would hide
//! from a proof what the view of the caches forgets.
//!
//! # What is left to others
//!
//! That a translation is the one of a key, when a look is followed by `hit` and `remember`, versions, places and the
//! journal are the board's. So is that counts fit: `hit`, `settle` and `put` ask for it.
//!
//! The totals of rules stand in `stats`.
#![tactic(auto)]

mod caches;
mod entries;
mod lists;
pub mod stats;
mod threads;

pub use crate::stats::Totals;
pub use board_steps::{EntryNumbers, Settled};
pub use caches::{EntryHit, KeyLook, PortCaches, Revalidated, SettledFrame};
pub use exact_cache::HashedKey;
pub use megaflow_table::{Entry, Megaflows};
