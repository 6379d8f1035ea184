//! What the flow tables make of a packet, and which bits of the packet decide it.
//!
//! A *translation* runs a packet's key through the flow tables, as ovs-actions(7) describes the actions, and comes to
//! a list of datapath actions. The datapath keeps that list in a *megaflow*, under a mask, and applies it to every
//! packet that agrees with the first one under this mask (NSDI 2015, section 4.2). So the mask has to have each bit
//! that the translation looked at, and as few others as can be.
//!
//! This crate says what a translation is, `pipe`, and which bits it consults, `consulted`. The two are apart on
//! purpose. `pipe` knows no masks: it is a plain run of the actions, each lookup a scan of all rules. `consulted`
//! walks along the same states and says of each lookup and each action which bits it has looked at, and none of the
//! rules of what they do. That the bits are enough is a law about the two, which `table_laws` proves.
//!
//! In the order of reading:
//!
//! - `Tags`: the VLAN tags of a key, and how they change.
//! - `Needs`: what a write needs the packet to be, and the fields that tell.
//! - `Commit`: the datapath actions that make a frame of one key into a frame of another.
//! - `Translation`: the state of a translation, what each action does to it, and lookups that lead to further ones.
//! - `Lookup`: the bits that one lookup consults: staged lookup and prefix tracking.
//! - `Consulted`: the bits that each action consults, and those of the whole translation.
//!
//! `docs/DEFINITIONS.md` leads through them in prose, with a picture of a run. `docs/OPEN_VSWITCH.md` has the points
//! in which Open vSwitch translates otherwise.
//!
//! Left to others: which key a frame has, what datapath actions do to the bytes of a frame, and every way of computing
//! these things faster than by the words used here.
#![tactic(auto)]
