//! What the tools tell: what the flow tables do to one flow, step by step, after ovs-appctl(8) `ofproto/trace`, and which
//! packets two tables treat differently, in classes. The forms are this profile's.
//!
//! Of a flow:
//!
//! - `Paths`: the lookups of a translation in their order, and the packet's key where it ends.
//!
//! Of two tables:
//!
//! - `Classes`: a class of packets, with what the old and the new tables do to their frames, in datapath actions or in
//!   flow actions without lookups; when a class is right, and when a list of classes is the difference of two switches.
//! - `Lines`: the same as a list of lines, of which the first that has a packet counts, as in flow tables. A line may
//!   also say that its packets are treated alike, and so take them out of those behind it.
//! - `Progress`: what is known part of the way, where packets are taken in cubes; and when a comparison that was
//!   given up had something left.
//!
//! Of the program that tells the one (`Trace`) and of that which tells the other (`Diff`):
//!
//! - `TraceWords`, `DiffWords`: the words of the command line.
//! - `TraceVerdict`, `DiffVerdict`: what becomes of them and of what they name; the first that is refused decides.
//! - `TraceTexts`, `DiffTexts`: what is printed; of a difference line by line or, in brief, once for each pair of actions.
//! - `TraceStatuses`, `DiffStatuses`: the exit statuses, and the texts that are printed with them.
//! - `TraceOutputs`, `DiffOutputs`: that all is printed, or a part of it; and when a comparison is given up.
//!
//! Left to others: how lookups, classes and lines are found and printed, and the files of edits with their faults
//! (`spec_run`).
#![tactic(auto)]

mod lookup;

pub use lookup::Lookup;
