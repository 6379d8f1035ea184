//! The law of a run's export: OUT.netflow reads back as the flows of the run.
//!
//! # What?
//!
//! What an export of flows tells reads back as these flows where each number has room in its field (`netflow_laws`). A flow
//! has numbers of the packets that came in, and one of what was decided of them: the port to which its first packet was
//! sent first. Here stands that this too has room, whatever rules decided, so that the law speaks of the runs of the switch.
//!
//! # What is promised
//!
//! Of any run whose ports are numbers of 16 bits, whose frames are made of bytes, and which has fewer than 2^32 of them
//! (`HasWidths`), and of whole journals of it: *reading OUT.netflow gives exactly the flows of the run, in their order*
//! (`exports_of_runs_read_back`). Nothing is asked of the rules.
//!
//! # How
//!
//! What a whole journal decides of a frame is a plain translation (`spec_run`), and this outputs at ports of the switch and at
//! the one where the packet came in (`exec_laws::sending`). Between outputs stand commits, which send nothing.
//!
//! # What is left to others
//!
//! That the runs of the switch are such, and that the file has these bytes, is the contract of the switch.

mod exported;

pub use exported::exports_of_runs_read_back;
