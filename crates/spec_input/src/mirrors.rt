//! The mirrors file: which traffic is copied to files of its own, a mirror a line (ovs-vswitchd.conf.db(5), table Mirror),
//! and what the whole file says, or what is wrong with it first (`Mirrors`).
//!
//! What a mirror of a run copies is said where runs are (`spec_run`, `Mirrored`).

mod mirror;
mod selector;

pub use mirror::Mirror;
pub use selector::Selector;
