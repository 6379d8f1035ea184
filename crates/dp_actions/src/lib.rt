//! Datapath actions: what a translation makes of a packet, and what caches keep of it.
//!
//! # What?
//!
//! The flow tables say what a switch is asked to do; a *datapath action* is what is done to a frame: it is sent to a
//! port, a tag is pushed or popped, a field is set. A megaflow keeps a list of them (ovs-dpctl(8), `add-flow`).
//! `spec_actions` has them as a plain enum, `DpAction`, which stands here again for those who use it.
//!
//! Flow actions change the *key* of a packet and leave the frame as it is, until it is sent. Then the frame has to become
//! one of that key: a *commit* finds the datapath actions that do it. So a field that was changed twice is set once, one
//! that was changed back isn't set at all, and of a field only the bits that differ are written.
//!
//! # What is promised
//!
//! An `ActionList` is a list of them, in order, and `Visits` are the numbers of the rules that a translation visited.
//! Contracts see them as these lists, and neither making one nor giving its vector back takes memory.
//!
//! `commit` appends exactly the actions that the definition of commit in `spec_xlate` gives for two keys, in the order of
//! the key. Out of memory is its only error, and then the list is as before.
//!
//! # How
//!
//! `commit` compares the fields that datapath actions write, one after the other, and appends as it goes. Where memory
//! runs out on the way, what it appended is cut off again, so that it needs no second list and no room beyond what the
//! actions take.
//!
//! # What is left to others
//!
//! What actions do to a frame is `spec_exec`'s, and which of them a packet is given `spec_xlate`'s. That commit turns the
//! one key into the other is a law of `table_laws`. The text of actions is printed by `action_text`.
#![tactic(auto)]

mod action_list;
mod changes;
mod key_tags;
mod visits;

pub use action_list::ActionList;
pub use changes::commit;
pub use spec_actions::DpAction;
pub use visits::Visits;
