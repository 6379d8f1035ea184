//! The difference of two versions of the flow tables: which packets they treat differently, and how.
//!
//! # What?
//!
//! Before rules are changed one wants to know what that does to traffic. `compare` takes two versions of the rules
//! and the ports of a switch, and gives the packets that they treat differently, in classes: a key and a mask, what
//! the old rules do to the frames of all packets whose keys agree with it on the mask, and what the new ones do.
//!
//! # What is promised
//!
//! The classes are the `IsDifference` of `spec_tools`. Every key that a frame may have, of a port that is listed once,
//! is in exactly one class, or in none, and then both versions do the same to its frame; one of another port is in
//! none. A class has a frame, and to each of its frames both versions do what it says of them, and not the same. Both
//! lists can be printed.
//!
//! Where there are more cubes than are looked into, there is no list; what was found up to then is right, and
//! something is left (`IsUnfinished`). Out of memory is the only other error.
//!
//! # How
//!
//! Packets are taken in cubes: a key, and the bits on which its packets agree with it. At first there is one for each
//! port. The packet of a cube's key is judged, with bits that decide the judgement (`judging`). The packets that have
//! these bits too are done with: alike, or a class. The others are put back, a cube for each bit of these: alike in
//! those before it, different in it (`splitting`). Each key is in as many of all cubes and classes as before, but for
//! those that were found alike; that is the invariant (`IsPartWay`).
//!
//! Most packets meet no rule that was changed, whatever becomes of the bits that actions write, and are treated alike
//! (`rule_changes`). One bit for each changed rule tells them apart from it (`apart`). Only the others are followed
//! through both versions.
//!
//! Which bits decide what becomes of those is proposed by a run through the tables that adds, for each rule that may
//! win and isn't told yet, one bit in which the packet differs from it (`leading`, `choosing`). Then it is checked by
//! runs with the mask fixed. Only the checks are proved, so a better choice changes no proof. A megaflow's bits would
//! serve too, and are far too many: of a packet that isn't of an address they have all of that address, and one bit
//! is enough.
//!
//! - `checking`: at each lookup, whether the mask tells of each rule that may win; at each action, whether it has the
//!   action's bits, those that are written over among them. Then the same datapath actions are done to all packets.
//! - `following`: whether all packets are led the same way, whatever is written over. It keeps which bits of their
//!   keys are known as they now are (`path`): those of the mask, less what was written, and more where all are written
//!   alike. At each lookup these have to tell of each rule that may win; at an output, of the ports; at a `dec_ttl`,
//!   whether the TTL has run out. Then the flow actions carried out, in one list, do to each packet what the tables
//!   do (`proofs/FollowLaws`), and to the same ports. More than 128 datapath actions may never come.
//!
//! Two ways that are known tell a class where the ports differ, or the frames that are sent last (`sent`), or both
//! lists of datapath actions are the same for all, and one that is alike where nothing is done on either, or the same
//! flow actions (`ways`). Where the ports are the same, one bit more may tell the frames apart, as where one version
//! writes an address and the other leaves it. Else bits that are written over are stated too (`proposing`). Where these
//! don't pass either, all bits of the packet are taken, which always decide.
//!
//! Which frame was sent last follows from the datapath actions (`proofs/NumberLaws`). So lists that are the same send
//! the same, and frames that differ in one bit are sent by other lists.
//!
//! At the end the classes are put in order: those of one pair of actions stand together, the widest first (`order`).
//! In any order they tell the same (`proofs/OrderLaws`).
//!
//! # What is left to others
//!
//! Fewer lines that say the same (`class_list`), and their text (`diff_app::lines`). Versions that send to the same
//! ports, and the same frame last but for its tags, and differ all the same, make a class for each value that bits may
//! have which are written over, and many of them end at the limit.
#![tactic(auto)]

mod actions;
mod apart;
mod checking;
mod choosing;
mod class;
mod comparing;
mod cube;
mod deed;
mod error;
mod finding;
mod following;
mod judging;
mod laws;
mod leading;
mod order;
mod path;
mod proposing;
mod sent;
mod settling;
mod splitting;
mod telling;
mod way;
mod ways;
mod whole;
mod written;

pub use actions::are_same;
pub use class::Class;
pub use comparing::{CUBE_LIMIT, compare, cube_of};
pub use cube::Cube;
pub use deed::Deed;
pub use error::CompareError;
pub use finding::found;
pub use laws::deciding_mask_is_sound;
pub use splitting::split_bit;
pub use written::add_written;
