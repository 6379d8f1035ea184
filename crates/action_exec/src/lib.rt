//! Datapath actions run on the bytes of a frame.
//!
//! # What?
//!
//! A translation gives a packet a list of datapath actions: outputs, and between them writes of fields and VLAN tags
//! that are pushed and popped (ovs-actions(7)). A `FrameBuffer` holds the bytes of a frame, and `apply` rewrites them by
//! one action. `execute` runs a whole list, and visits each piece that it sends: a port, and the bytes as they then are.
//!
//! # What is promised
//!
//! `spec_exec` says what an action makes of a frame, and what a list sends. The bytes are exactly those, for every frame,
//! however short or broken, and every action, be its value, mask and field what they may.
//!
//! - A write changes the bits of its field under the mask, and none beyond the field's width. The checksums that cover
//!   the field follow, word by word (RFC 1624, equation 3), also where they were wrong; a word that stays updates none.
//! - A frame without the field's header stays as it is: so does one with a malformed header, and ports stay in a later
//!   fragment.
//! - Out of memory is the only error. Only a push asks for memory, and then the frame is as before; a frame that
//!   can't be loaded leaves the buffer without bytes.
//! - `execute` calls its visitor with exactly the pieces that are sent, in their order; where memory is refused, with
//!   none.
//!
//! # How
//!
//! `frame_keys::layout` finds the headers, once for each write; the addresses of Ethernet need none. Then `place` names the
//! bytes of the field, `shape` how it stands in them, and `sum` the checksums that cover it.
//!
//! A checksum follows the words that its field is part of. The code keeps those words as they were, at most eight, then
//! writes the field, and then updates one checksum after the other. It reads the words as they now are from the frame,
//! as the definition does, so that no proof needs to know that a checksum stands apart from the field.
//!
//! A tag is appended to the buffer and moved to its place, so that the buffer grows by 4 bytes. `execute` asks for the
//! room of all tags before it visits anything, and copies nothing for a list of outputs alone.
//!
//! # What is left to others
//!
//! Which actions a packet is given (`spec_xlate`), and where its pieces go. That a rewritten frame has the key that the
//! actions mean is a matter of laws about the definitions. No payload is read: a checksum that was wrong before is wrong
//! after.
#![tactic(auto)]

mod buffer;
mod checksum;
mod execution;
mod field;
mod number;
mod place;
mod shape;
mod sum;
mod tag;

pub use buffer::FrameBuffer;
pub use execution::{execute, is_output};
