//! The laws of parts: why a long run may be cut, and what comes out put together.
//!
//! # What?
//!
//! A run has so many frames at most, and a capture may have more. It can be cut by time: each of its parts is a run of
//! its own, with the frames of that time and with the rules that stand then (`specs/Parts`). A part has the same edits,
//! so that rules keep their numbers. Of the sync points up to its begin the last is put at time 0, and those before it
//! are left out: the edits before it are made at once, and what follows is as in the whole. Its traces keep their
//! ports and their unit of time, also where they have no frame then.
//!
//! # What is promised
//!
//! Of a run in which no block has both edits and frames (`HasEditsApart`), cut at any number of times, of whole journals
//! of it, and of whole journals of each part, whoever made these, with whatever numbers of workers:
//!
//! - *No block of a part has both edits and frames* (`parts_have_edits_apart`).
//! - *The file of a port is the header once, and then the records of the parts, one after the other*
//!   (`files_of_parts_follow`), and so is the file of a mirror.
//! - *The packets and bytes of a rule are the sums of those in the parts* (`rule_counts_of_parts_add_up`). The dumps of
//!   the parts tell the same rules in the same order, those that are gone too, and the dump of the whole is that of any
//!   part with the sums in it.
//! - *The flows of a class have as many packets and octets as in the parts together* (`flows_of_parts_add_up`), and its
//!   packets come in at the same times. By these the first flow of a class begins and the last one ends, in the whole as
//!   in a part.
//! - *Frames, and how many are sent and dropped, are in a summary the sums of those in the parts*
//!   (`summaries_of_parts_add_up`).
//!
//! # Premises
//!
//! A run may be cut at a time where in each trace the frames before it stand before those from it on
//! (`MayBeCutAt`). Where a trace isn't so, what is sent is put together in another order (`proofs/Rows`). Nothing is
//! asked of the times within a part. That ports differ is asked because a trace is told by its port. Sums over rules and
//! summaries ask neither.
//!
//! # Which definitions this refuses
//!
//! Parts that make an edit again or not at all, or number rules anew; a part whose frames are decided under a version of
//! another block; a frame that is in two parts or in none; a sum over what was credited that leaves out what is owed,
//! since what a megaflow owes at the end of a part is paid nowhere else.
//!
//! # How
//!
//! A frame of a part is in the block that it has in the whole, but for the blocks that were left out before it
//! (`proofs/BlocksOfParts`), so the version by which it is decided is the same (`proofs/Apart`, `proofs/ByLast`). The
//! arrivals of the whole in order are those of the first part and then the others, whose places are counted on
//! (`proofs/Sorted`, `proofs/Frames`): each arrival is put before or after all of the other part. What is made of each
//! arrival then follows (`proofs/OutputsOfParts`), and what is summed over the decisions of a journal is a sum over the
//! places of its trace (`proofs/EachOnce`). So it is for two parts; and a part can be cut again, since nothing here
//! looks at journals but in the end (`proofs/AllParts`).
//!
//! # What is left to others
//!
//! That a tool cuts and joins so. What depends on the order of steps isn't one switch's: journals, megaflows, and in the
//! summary the looks, settles and entries. An export tells times in milliseconds from the first frame of its own run,
//! so the times of the whole come from the packets and not from the exports of the parts.

mod counts;
mod cuts;
mod files;
mod flows;

pub use counts::{rule_counts_of_parts_add_up, summaries_of_parts_add_up};
pub use cuts::parts_have_edits_apart;
pub use files::files_of_parts_follow;
pub use flows::flows_of_parts_add_up;
