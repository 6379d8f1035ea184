//! Rules of the flow tables, edits, and all versions that bundles of edits make.
//!
//! # What?
//!
//! A run begins with empty tables, which is *version* 0, and each *bundle* of edits makes the next version: one edit
//! (ovs-ofctl(8), `add-flow`, `mod-flows` and `del-flows`), or more that become true together (`bundle`). Frames are
//! translated against different versions at the same time, and a cached answer is judged by the rules of the version
//! that it was made for. So no version may be lost, and a copy of the rules for each would take memory by the square of
//! the edits. `VersionedRules` is one store that answers for every version from 0 to the last.
//!
//! # What is promised
//!
//! Contracts see a `VersionedRules` as its *history* (`specs/History`): the rules after each edit, how many rules the
//! edits changed, and how many edits stand through each bundle. The rules of a version are those after its last edit.
//! `history_of edits bundles` is the history that edits make in bundles; the rules of version v there are
//! `version edits bundles v` of `spec_tables`.
//!
//! - `scan` answers the number of the rule that wins for a key in a table of a version, as the definition `winner`
//!   finds it, and `None` exactly where no rule of that table matches.
//! - `live` tells whether the rule of a number is live in a version, and `cookie` and `actions` are those that it has
//!   there. `rule` is the rule as its edit added it. A rule that comes and goes within one bundle was added, and is
//!   live in no version.
//! - `apply` makes the next version by the edits of a bundle, of any of the five words, and never changes what is
//!   answered for the earlier ones. Where it lacks memory nothing changed: no edit of the bundle was applied.
//! - `change` tells which rules the bundle after a version brought, and which it took away. A rule that comes and goes
//!   within the bundle is neither. `change_laws`: but for what modifies give, which is cookies and actions, the rules
//!   of the next version are those of this one without the latter, and behind them the former; and their numbers rise.
//!   `first_law`: version 0 has no rules.
//! - `changes` counts the rules that were added, given actions and removed, edit by edit.
//! - Only `new` and `apply` are given an allocator, and `new` takes no memory: no answer can fail.
//!
//! # How
//!
//! Two layers: `EditedRules` knows the rules after each number of edits, and nothing of bundles. `VersionedRules` keeps
//! beside it how many edits stand through each bundle, and asks it for the rules after these.
//!
//! Each rule that was ever added is stored once, with its life span. It has the number of the edit that added it, and
//! is live from that edit on, up to the one that ended its life. The stored rules stand in the order of their numbers,
//! which have gaps where edits add nothing; a number is looked for where it stands if there are none, and else by
//! binary search.
//!
//! Each end of a life is logged as well (`ending`), in the order of the edits: the place of the rule and the number of
//! the edit that ended its life. So what a bundle changed is told by two stretches, whose bounds are found by binary
//! search: the stored rules that its edits added, of which those count that are live after it, and the lives that its
//! edits ended, of which those count that began before it (`changes`). Nothing is copied, and no match is looked up. The
//! log takes its memory with the rules, since each life ends once; so an end takes none.
//!
//! Each modify is kept once as well, as a *modification*: its number and its edit. That a rule was given one is a
//! *giving* in a log: which modification it is, and where the giving before it of the same rule stands. A rule leads to
//! its last one, so what it was given is found along the log, the newest first, past all that other rules were given.
//! After so many edits it has the actions of the first of these that isn't later, and the cookie of the first from
//! there on that has one. A modify only acts on rules that are live, so a rule that is gone is given nothing more.
//!
//! The log is an index: what it tells is known from the modifications as well, which tell by their numbers and edits to
//! which rules they were given. It tells of the first ones, mostly of all, and those past them are tested one by one.
//!
//! All that an edit writes is of its own number, and what is answered for fewer edits doesn't see it: an end of a life
//! and a modification come after them, and so does the number of a new rule.
//!
//! Which rule an add replaces and which one a strict word names is looked up by a hash of its table, its priority and its
//! match, of 64 bits (`places`). The mask is hashed with the key, since routes to nested networks share their key. A map
//! leads from the hash to the place of a live rule, and what the edit names is compared with that rule itself: so no match
//! is kept twice. Where live rules share a hash, which hardly ever happens by chance, the map leads to the one that came
//! last, and the places of the others stand in a list, which is searched after it.
//!
//! On which rules a loose word acts no hash tells. It passes over the signatures of the matches of all stored rules
//! (`signatures`), which stand side by side, and only those rules are tested whose signature includes that of the edit.
//!
//! `apply` takes the edits of a bundle, and all memory before it changes anything: room for a rule, its signature, its
//! end and its place for each add, for a modification for each modify, and for the bundle. From there on nothing can
//! fail. Only the log takes its memory later: on how many rules a modify acts is known once the edits before it were
//! applied, and a bound beforehand could be too large by far. So each modify takes it in its turn. Where it is refused the
//! log ends, and no answer changes; so nothing is undone, and no call fails for want of it.
//!
//! # What it costs
//!
//! - An add or a strict word takes the same time whatever rules there are, but for the growth of the tables, which
//!   double, and for one test of each live rule that came before another of its hash. The hash isn't secret: rules can be
//!   made that share it, which costs that time and nothing else.
//! - A loose delete passes once over the signatures of the stored rules, and a loose modify twice: it counts, and then
//!   gives. A signature is 16 bytes. It tests the rules that it reaches, and of the others, also of those that are
//!   gone, the few whose signature includes its own; of one that is gone it reads the end of its life alone.
//! - `cookie` and `actions` find the rule at the place of its number, or else by binary search, and go back along what it
//!   was given. In the last version that is one step for the actions, and for the cookie as many as it was given without
//!   one. Then they test each modification of which the log doesn't tell. `scan` tests each stored rule.
//! - `change` takes two binary searches each over the stored rules and the ends, and then the time of what the bundle
//!   added and ended.
//! - A rule takes 416 bytes, 16 more for its signature and 8 for its end, a modification takes 400, besides their actions,
//!   and a bundle takes 4. A live rule takes 12 more, for its hash and its place, and 15 by which the map finds these. The
//!   list of the other places has room for the adds of the largest bundle, at 4 each.
//! - A giving takes 24. There are no more of them than changes, but thousands of loose modifies of thousands of rules
//!   would make them by the square, in one bundle too. So the log ends where it would have more than 1,048,576.
//!
//! # What is left to others
//!
//! `scan` is the plain answer beside which a classifier is judged.
//!
//! Matches in a few bits, by which most rules that an edit doesn't reach are passed over, stand in `signatures`.
#![tactic(auto)]

mod actions;
mod changes;
mod edit;
mod edited;
mod ending;
mod givings;
mod matching;
mod places;
mod rule;
mod search;
pub mod signatures;
mod stored;
mod versions;

pub use actions::Actions;
pub use changes::Change;
pub use edit::Edit;
pub use matching::Match;
pub use rule::Rule;
pub use spec_actions::OfAction;
pub use spec_tables::{EditWord, SyncPoint};
pub use versions::VersionedRules;
