//! The totals of rules: how many packets and bytes each was credited with.
//!
//! # What?
//!
//! A switch tells of each rule how many packets and bytes it has had (`n_packets` and `n_bytes` of ovs-ofctl(8)).
//! Whatever decides a frame visits some rules, one of them maybe twice, and each *visit* credits its rule with the
//! frame. A megaflow counts for all of its rules and pays later: its visits are then credited with many frames at once,
//! as Open vSwitch pushes statistics from its megaflows to its rules (ofproto/ofproto-dpif-upcall.c).
//!
//! # What is promised
//!
//! Contracts see `Totals` as a list with the total of each rule, in the order of their numbers, which count from 1;
//! `total_of` is the total of a rule, and has nothing for what is none (`specs/Sums`).
//!
//! - `new` has nothing for each of so many rules. It takes all memory, and no other call takes any.
//! - `rules` tells how many rules there are. It stays.
//! - After `credit` each total is what `credited` of `spec_board` makes of it: a rule that stands twice among the
//!   visits is credited twice. The visits have to be rules, and the sums have to fit 64 bits, which the caller knows by
//!   the number of its frames.
//! - `of` answers the total of a rule.
//! - Totals that are the same rule by rule stay so when the same visits are credited (`proofs/SameTotals`). So whoever
//!   keeps totals by the definition, as a function of the rule, may ask these in their place.
//!
//! # How
//!
//! A rule's counts stand at its number less 1, so a visit costs one access. A board has its own, since it credits its
//! rules without asking the others; each has as many as there may be rules, of 16 bytes each.
//!
//! # What is left to others
//!
//! Which rules there are, in which versions they live, and the sum over all boards.

mod counts;
mod threads;
mod totals;

pub use counts::Counts;
pub use totals::Totals;
