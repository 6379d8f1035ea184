//! The laws of boards and of whole runs: why a cached answer is the answer of the flow tables.
//!
//! `spec_board` says step by step what a board does. Such definitions can be wrong in ways that nobody sees. Here stand
//! the facts by which a reader can believe them, for every legal journal, whatever the order of its steps. Each is the
//! contract of a function that does nothing: to call one is to have its facts.
//!
//! # What is promised
//!
//! - *Every frame that is decided is decided once, as a plain scan of one version of the tables decides it, and that
//!   version is in its window* (`frames_are_decided_rightly`); a complete journal decides all frames
//!   (`complete_journals_decide_all`).
//! - An entry has the translation of its own key, and covers the bits that this consults
//!   (`entries_cover_what_they_were_made_for`). So it gives, for every key that it covers, what a plain scan under its
//!   version gives (`entries_are_right`), and visits only rules that edits added (`visits_of_entries_are_rules`). No
//!   key is covered by two (`entries_are_apart`), and a slot that names a live entry names one that covers the slot's
//!   key (`slots_name_covering_entries`). So a look finds the one entry that covers the key, if there is one, whatever
//!   the order in which entries are tried (`looks_find_the_covering_entry`, `entries_are_found`).
//! - The versions of a board and of its entries stand in order (`versions_stand_in_order`).
//! - Totals and what entries owe are together what each rule is due (`totals_and_debts_are_due`). This is bounded
//!   (`dues_are_bounded`, `counts_are_bounded`, `translations_are_short`, `entries_count_what_they_decided`).
//!   Translations visit only rules that edits added (`translations_visit_added_rules`).
//! - A sweep lists live entries by rising numbers (`sweeps_list_live_entries`). Places are looked up in order
//!   (`places_wait_in_order`), and each that was is decided or pending (`frames_looked_up_are_decided_or_pending`).
//!
//! With workers, or with given steps, a run may have many lists of journals: which frame hits which megaflow, and when it
//! is revalidated, is as threads have it. Of any run in which no block has both edits and frames (`HasEditsApart`), and of
//! whole journals of it:
//!
//! - *Each frame was decided under the last version of its block* (`frames_are_decided_by_last_versions`).
//! - *There is one answer* (`edits_apart_give_one_answer`): of two lists of journals the datapath actions of each frame are
//!   the same, and so are the frames that go out at each port and its file, the packets and bytes of each rule, and the
//!   dump of the rules. This follows wherever both lists decide each frame under the last version of its block
//!   (`last_versions_give_one_answer`), as a run without workers and given steps does in any case. So such a run can be
//!   compared with one that has workers.
//!
//! # Which definitions this refuses
//!
//! A window that reaches beyond the versions of the frame's block; a frame whose actions are those of a megaflow and not
//! those of its own key; a rule that is credited twice for a frame, or not at all; a dump of rules that shows what was
//! credited and leaves out what is owed, since when a megaflow is revalidated is as threads have it.
//!
//! # How
//!
//! Each fact is kept by every step. What a step does to the entries is said once: an entry of the state after the step
//! was there before, with no more than its counts changed; or it was there and has a new translation; or it is new
//! (`proofs/Origins`). The facts of entries and slots follow from these three cases, and with those of places and sweeps
//! they are one record that every step keeps (`proofs/Kept`); versions are a second one (`proofs/KeptInOrder`). That an entry
//! is right is wildcard soundness, at a mask that covers the bits that the translation of its own key consults. Decisions
//! and counts are sums over the steps: a step decides one frame rightly, or none (`proofs/Told`).
//!
//! A whole journal decides each place of the trace by one step, and under the last version of its block each is what the run
//! alone says (`proofs/ByLastVersions`). What a rule is due is a sum over the decisions, which is the same in any order
//! (`proofs/Passing`); and what it was credited with and is owed is together what it is due.
//!
//! # Premises
//!
//! The words of `specs/Boards` say of which boards and journals a law holds: of all that are legal (`OfBoards`). Where
//! keys are spoken of, the frames that were looked up have keys within the widths of their fields (`OfKeyedBoards`);
//! frames of bytes that come in at a port of 16 bits have (`frames_of_bytes_have_keys`). Where versions are, the sync
//! points stand in order (`OfOrderedBoards`); where decisions and counts are, both hold (`OfJournals`). Without either
//! premise there are legal journals at which the laws fail (`proofs/Premises`).
//!
//! # What is left to others
//!
//! That a program's journal is legal is the contract of the crate that keeps boards, and that its journals are whole is that
//! of what makes them. These laws don't see when an entry was last used, the clock, and which of its two slots a key is put
//! into: worked rows show these. Megaflows, their counts and the journal itself depend on the order of steps, as does what the
//! summary says of them. Where a block has both edits and frames a frame may be decided under any version of its window: each
//! answer is then one of those that `spec_board` allows.
#![tactic(auto)]

mod answers;
mod counts;
mod decided;
mod entries;
mod last_versions;
mod versions;

pub use answers::{edits_apart_give_one_answer, last_versions_give_one_answer};
pub use counts::{
    counts_are_bounded, dues_are_bounded, entries_count_what_they_decided,
    totals_and_debts_are_due, translations_are_short, translations_visit_added_rules,
};
pub use decided::{
    complete_journals_decide_all, frames_are_decided_rightly,
    frames_looked_up_are_decided_or_pending, places_wait_in_order,
};
pub use entries::{
    entries_are_apart, entries_are_found, entries_are_right, entries_cover_what_they_were_made_for,
    frames_of_bytes_have_keys, looks_find_the_covering_entry, slots_name_covering_entries,
    visits_of_entries_are_rules,
};
pub use last_versions::frames_are_decided_by_last_versions;
pub use versions::{sweeps_list_live_entries, versions_stand_in_order};
