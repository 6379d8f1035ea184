//! What a mirror copies of a run's frames, in the order in which it stands in the mirror's file.
//!
//! # What?
//!
//! A *mirror* copies chosen traffic to a capture file of its own: frames that come in at some ports or at any
//! (`select_src_port`, `select_all`), and frames that go out at some ports (`select_dst_port`; ovs-vswitchd.conf.db(5),
//! table Mirror). `write_mirror` writes the file of one.
//!
//! # What is promised
//!
//! `write_mirror` writes exactly the file that `spec_run` defines for the mirror (`Mirrored`), out of the journals of
//! finished boards: a frame that comes in at one of its sources as it came in, another as it first goes out at one of its
//! destinations, with the time at which it came in, in the order of the arrivals. So a file has at most one copy of each
//! frame, however often it is sent, and never one as it came in beside one as it went out. On a shelf that tells its bytes, a
//! refused call leaves a prefix of that file after the files that were there before, or nothing of it.
//!
//! # How
//!
//! One walk along the arrivals. What comes in at a source goes from its trace to the shelf, and its actions are not looked
//! at. For another frame its filter tells whether a destination may get it (`egress_capture`); there the first output to one
//! is looked for. Where no action before it rewrites the frame, the copy is written from the trace too; else the frame is
//! rewritten in a buffer, one for each file, by the actions before that output and no more.
//!
//! # What is left to others
//!
//! That every frame is decided (`run_boards`, whose `Finished` has it as its type), how a mirror is read (`port_scripts`),
//! the name of the file, and that files are written for all mirrors.

mod mirror_file;

pub use mirror_file::write_mirror;
pub use spec_input::mirrors::Mirror;
