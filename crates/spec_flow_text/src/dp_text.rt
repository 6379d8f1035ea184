//! Datapath actions as text, as dumps of caches print them, after ovs-actions(7) and ovs-dpctl(8).
//!
//! - `Printed`: the one text of a list of datapath actions.
//! - `Within`: which lists write only numbers that their fields can hold.
