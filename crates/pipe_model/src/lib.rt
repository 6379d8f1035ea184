//! The plain interpreter of flow actions: what the tables of a version make of a packet.
//!
//! # What?
//!
//! A packet's key is looked up in table 0, and the actions of the rule that wins are run in order (ovs-actions(7)): they
//! change the key, send the packet, and look it up in further tables. What comes of it is a list of datapath actions, and
//! the rules that were visited. The interpreter knows no masks and no caches, and leaves to its caller how a rule is found.
//!
//! # What is promised
//!
//! `translate_by` gives both lists exactly as the definition `pipe` of `spec_xlate` does: for every key, all rules that can
//! be run, and every list of ports. All fourteen actions are run, with what they need of the packet, and within the three
//! limits: a lookup more than 64 deep, a 513th lookup or a 129th datapath action ends the translation with no datapath
//! actions, while the visits so far stay. Out of memory is the only error.
//!
//! Rules can be run (`specs/Runnable`) where their actions are sound, and each is found by its number. Rules that edits
//! made have distinct numbers, and sound actions where those of the edits are sound (`proofs/Versions`).
//!
//! Who finds the winning rule, and how, is a `Lookups`. It also gets told each lookup with its depth and each action, for
//! its notes, in the order in which they happen (`specs/Events`). `run_through` gives the packet's key at the end beside
//! both lists.
//!
//! `Translated` is what comes of a translation whose notes are the bits that it consulted. It stands for every packet
//! whose key agrees on these bits (`IsWildcardSound`, specs/Xlates.antt): that is for whoever makes one to show.
//!
//! # How
//!
//! Each action is a method of `Translating`, a translation under way, and does what the definition of that step does to the
//! definition's `State`; only lookups call each other (`interpreter`). An output appends at once what turns the frame's
//! key into the current one, and the outputs; what is beyond the limit is cut off again, and the translation is over. Where
//! a packet goes to all other ports, these are found one number after the other, so that no sorted copy of the
//! ports is made.
//!
//! A translation is made in empty lists that its caller hands in (`SpareLists`), so that it takes no memory where what it
//! makes fits in them. `SpareLists::new` gives the first ones, and `Plain::into_spare` those of a translation before.
//!
//! # What is left to others
//!
//! Which rule wins a lookup, and which bits each lookup and each action consults. What the datapath actions do to a
//! frame. And that the actions of edits are sound, which whoever reads them sees to.
#![tactic(auto)]

mod interpreter;
mod lists;
mod lookups;
mod mode;
mod outputs;
mod ports;
mod translated;
mod translating;

pub use interpreter::{Ended, run_through, translate_by};
pub use lists::{Plain, SpareLists};
pub use lookups::{Found, Lookups};
pub use translated::Translated;
pub use translating::Translating;
