//! The flow tables of a run, published version by version to threads that read them.
//!
//! # What?
//!
//! While one thread leads the tables from version to version, others translate packets through them. None of them may see
//! half a bundle of edits, and a packet in translation shouldn't wait for one. So the tables are *published*: one `Editor` makes the
//! next version beside the one that is read, and then shows it all at once. Each `Seer` reads through a `Guard`, under
//! which the version that it entered stays as it is.
//!
//! # What is promised
//!
//! Contracts see an `Editor`, a `Seer`, a `Guard` and a `News` alike (`specs/Seen`): of which publication they are, and a
//! version. The version of an editor is the one that it published last, that of a seer the greatest that it saw or learnt,
//! that of a guard the one that it reads, and that of a news the one that is told. Every call that hands one of them back
//! hands back one of the same publication. Of an editor contracts see too for how many readers it asked for places.
//!
//! - `publish` gives an editor and exactly so many seers, all of one publication and at version 0. It asks for places for
//!   two readers for each seer, and one more, and the editor tells how many it asked for.
//! - `publish_next` publishes the next bundle of the run. It answers the version that the bundle makes, one more than the
//!   one before; `NoneLeft` exactly where all bundles are published, with their version; or out of memory, and then nothing
//!   changed and the call may be made again.
//! - `enter` gives a guard of the version that is published at one moment of the call, which is at least every version
//!   that this seer saw or learnt. `Guard::tables` lends the tables of this version (`table_versions`), and `leave` hands the
//!   seer back, which has seen it.
//! - `tell` gives the editor's version as a `News`, and `learn` takes it in: from then on this seer enters no older one.
//!   So after `publish_next`, `tell` and `learn` the next `enter` gives that version or a later one.
//!
//! - `translate_newest` translates a key under the version that a seer enters, and leaves it before it ends: the editor waits
//!   for no more than a translation, and no lock is held in it. Whether a board still takes the translation is known only
//!   under the board's lock; the words of `specs/Versions` say where a version that a board names in its refusal stands.
//!
//! Only `publish`, `publish_next` and `translate_newest` take memory. Without news a seer knows only what it saw itself: that a version is
//! published in one thread is nothing that another thread could know, unless it is told.
//!
//! # How
//!
//! There are two copies of the tables (`left_right`), over one store of the run's rules. Readers read one, the editor has
//! the other go on to the next version, and then one atomic step turns the readers to it. The copy that was read before is
//! a version behind then; it goes on at the next turn, once the last reader of it has left. What is kept for that turn is a
//! number. Reading takes two atomic steps and no lock.
//!
//! What a thread knows of versions is its *view*, which exists in proofs alone. The rule over the views is that none is
//! above the published version (`rule`). There are five kinds of step, and each keeps it (`proofs/Views`): making the copies and
//! the seers, publishing, entering, telling and learning. So a seer that enters finds at least what it knows. A seer
//! keeps its version as a number too, by which the greater of two is picked.
//!
//! A `News` is a reader of its own, which has taken in the editor's view. To learn is to go on with the one of the two
//! readers that knows more, and to give the other's place back. So there are places for twice as many readers as seers,
//! and one more, and an editor that tells waits where no place is free. That `left_right` makes as many as it is asked for
//! is nothing that it says: a test tells news until all places are taken.
//!
//! That a reader stays with its tables as it enters and leaves is nothing that `left_right` says. So of which publication
//! a seer is, is told by a factory of readers that it keeps beside its reader.
//!
//! # What is left to others
//!
//! Which bundle is published when, who is told of it, and how news go from thread to thread. Where news lie behind a lock,
//! its type has to say of which publication they are, since a contract knows nothing else of what a lock holds. That
//! `publish_next` ever returns isn't promised: it waits for readers to leave.
#![tactic(auto)]

mod editor;
mod publication;
mod rule;
mod seer;
mod threads;
mod translating;

pub use editor::{Editor, PublishFault};
pub use publication::{MOST_SEERS, publish};
pub use seer::{Guard, News, Seer};
pub use table_versions::{RunTables, SpareLists, Tables};
pub use translating::translate_newest;
