//! What a flow may ask for, and what is done to a frame, after ovs-actions(7) and ovs-fields(7).
//!
//! A *flow action* (`OfAction`) is what a rule says: output, resubmit, a write to a named field. A translation turns
//! flow actions into *datapath actions* (`DpAction`), which act on the bytes of a frame and know no tables.
//!
//! - `Named`: the one table of the named fields of the flow text: the bits of the key that each stands for, the bits
//!   that a write may change, what a write needs the packet to be, and whether a match may mask it.
//! - `Sound`: which lists of flow actions make sense: values within their fields, slices within their names.
#![tactic(auto)]

mod action;
mod named_field;

pub use action::{DpAction, OfAction, Slice};
pub use named_field::{NamedField, Prerequisite};
