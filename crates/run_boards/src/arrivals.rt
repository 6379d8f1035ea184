//! The frames of a run in the order in which they came in.
//!
//! # What?
//!
//! Frames come in at all ports of a switch, and each is an *arrival*: a time, an ingress port, and a place in that
//! port's trace. What leaves the switch stands in the order of arrivals: by time, of equal times by ingress port, and
//! then by place. So it depends on the input and on what was decided, and not on when a frame was processed or by which
//! thread.
//!
//! # What is promised
//!
//! `arrivals_of` gives exactly the arrivals of a run in this order, as `spec_case` defines it: none is lost, added or
//! changed.
//!
//! # How
//!
//! The fields of an `Arrival` stand in the order of their weight, so its derived order is the one that is wanted, and
//! std's stable sort does the rest. It takes the frames of a port, which mostly came in by time, as the run in order
//! that they are, and merges the runs. Where a list isn't in order already and has more than 20 arrivals, it takes a
//! buffer as long as the list from the allocator of the vector, before it moves anything.
//!
//! There is but one way to sort a list stably, and to put each arrival where it belongs among those in order, as the
//! definition does, is a stable sort too: that is the proof.
//!
//! # What is left to others
//!
//! What was decided of the frames, and what is sent of them (`egress_capture`).

mod arrivals;

pub use arrivals::arrivals_of;
