//! The difference of two versions of the flow tables as a list of lines, of which the first that has a packet counts.
//!
//! # What?
//!
//! `table_diff` tells a difference in classes that overlap nowhere. What one rule takes out of another then falls into
//! pieces, a class for each bit or prefix: two changed rules of an access list make a hundred. As flow tables
//! themselves say it, by lines of which the first counts, they are three, and one that takes packets out:
//!
//!     tcp,nw_dst=10.0.0.0/24,tp_dst=22   - 2   + drop
//!     ip,nw_dst=10.0.0.0/25              =
//!     ip,nw_dst=10.0.0.0/24              - 2   + 3
//!     tcp,tp_dst=22                      - 3   + drop
//!
//! A line tells what the old rules do to its packets and what the new ones do, or that both do the same (`=`), which
//! takes its packets out of the lines behind it.
//!
//! # What is promised
//!
//! Of the classes of a difference `lines_of` gives lines that are `IsListed` of `spec_tools`: to each frame that comes
//! in by one of the ports both versions do what the first line says that has it, and where that is `=`, or none has it,
//! they do the same. No line that tells a difference has a frame of another port, and each is the first for some frame.
//! Where there is no such line there is none.
//!
//! In which order lines stand is left open, and how many there are. Out of memory is the only error.
//!
//! # How
//!
//! Lines are *proposed*, and then *checked* against the classes. Only the check is proved, so a better proposal changes
//! no proof. Where it fails, or takes too long, or the lines are no fewer, the classes are the lines: they are such a
//! list too (`proofs/ClassLaws`).
//!
//! *The check* (`agreeing`) knows nothing of rules. It holds two lists of lines against each other, of which the one
//! is that of the classes. Packets are taken in cubes; at first the cubes are those of all lines of both lists that
//! tell a difference, since of any other packet both lists say the same. Of a cube a list says one thing where each
//! line has all of its packets or none, up to the first line that has them all. Where both lists do, it is seen
//! whether they say the same of the cube's key. Else the cube is halved, at a bit that the line states and the cube
//! doesn't. Each packet of the first cubes is in one that is left, or both lists say the same of it (`IsSettled`).
//!
//! What else is asked of lines is seen line by line (`listing`): that the key of its cube is in no line before, and
//! that its cube is of a port.
//!
//! *The proposal* (`proposing`) begins with no line and settles the cubes of the classes as the check does. Where the
//! lines so far say otherwise than the classes, the packet of the cube's key is sent through both versions, and a line
//! is added of all packets that come the same way. Its bits are those that the rules state which were *met*, not those
//! of rules that were passed by, as far as no action had written them before, or from where they were copied
//! (`meeting`). It says of them what the classes say of that one. Lines stand in the order of the ways by the old
//! rules, then by the new ones: at the first lookup where two ways part, that is first whose rule wins. So of all lines
//! that have a packet its own comes first, since on each of the others a rule was met that has the packet too and
//! doesn't win. Where that isn't enough, as behind a `dec_ttl`, a line is added of the cube alone, before those that
//! have its key. At last lines are left out without which the others say the same.
//!
//! # What is left to others
//!
//! The classes (`table_diff`), and the text of lines (`diff_app::lines`).
#![tactic(auto)]

mod agreeing;
mod budget;
mod line;
mod listing;
mod meeting;
mod proposing;
mod saying;
mod shortening;

pub use line::Line;
pub use shortening::lines_of;
