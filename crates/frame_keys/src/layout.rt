//! Where the headers of a frame stand.
//!
//! Actions that rewrite a frame need to know where its headers stand, which `layout_of` says, exactly as `spec_frames`
//! has it, for every frame, however short or broken. A malformed network header isn't in the layout, and no header
//! after it. A layout has the transport header of a first fragment, of which a key has no ports. The call takes no
//! memory.
//!
//! The headers that a layout names lie in the frame, so that whoever writes to them needs no further test.
//!
//! `headers` reads the headers. The layouts of some 150 frames are those that tshark finds (`worked_rows::frames`).
//!
//! Changes to a frame are left to others.

mod layout;

pub use layout::layout_of;
pub use spec_frames::{L3, L4, Layout};
