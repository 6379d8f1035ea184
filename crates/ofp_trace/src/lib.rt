//! The flow tracer: what the flow tables do to a packet, told step by step, as ovs-appctl(8) `ofproto/trace` tells it.
//!
//! # What?
//!
//! A translation says what becomes of a packet, and the rules that it visited. Who wants to know why a packet went where it
//! did also wants the lookups at which no rule was found, and how deep each lookup is in the actions that led to it. `trace`
//! gives these beside the translation: the list of all lookups, each with its depth, its table and the rule that won, if
//! one did; and the packet's key as it is where the translation ends, with its registers.
//!
//! # What is promised
//!
//! - `path` is the list of the definition `path_of` of `spec_tools`: every lookup that is made, in the order in which they
//!   are, and no other. `last` is the key of `last_of`. Both go along the states of the plain translation, `pipe` of
//!   `spec_xlate`.
//! - The translation is that of `xlate_pipeline`: both lists of `pipe`, and the bits of `consulted`.
//!
//! All this holds for every key, all tables whose rules can be run (`pipe_model`'s `AreRunnable`), and every list of ports,
//! also where a limit ends the translation. The only error is out of memory.
//!
//! # How
//!
//! The packet is run through the tables twice. The first run is the translation, whose notes are a mask. The second is the
//! plain interpreter's `run_through`, whose notes are the lookups (`watched`): it tells each lookup with its depth, and at
//! its end gives the key. A translation makes 512 lookups at most (`proofs/FewLookups`), so the room for all of them is taken
//! before, and noting one can't fail.
//!
//! # What is left to others
//!
//! What a trace is printed as (`lines`), and which tables and which packet it is of (`trace_app`).
//!
//! The lines of a trace stand in `lines`.
#![tactic(auto)]

pub mod lines;
mod path;
mod tracing;
mod watched;

pub use spec_tools::Lookup;
pub use tracing::{Traced, trace};
