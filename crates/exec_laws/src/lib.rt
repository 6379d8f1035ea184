//! The laws of execution: what datapath actions do to a frame's key, to its headers and to its bytes.
//!
//! # What?
//!
//! `spec_exec` says by offsets which bytes of a frame an action writes, and `spec_frames` says by offsets which key a
//! frame has. A definition that is a byte off, or forgets a shift, looks as good as a right one. Here the two are held
//! against each other: each fact is the contract of a function that does nothing, so to call one is to have its facts.
//!
//! # What is promised
//!
//! - A field whose header is there reads back: after a write the key has the bits that were written, and all other bits
//!   as before (`fields_read_back`). A field whose header isn't there isn't written, and a write to ports of a
//!   fragment, which its key doesn't show, leaves the key as it is (`other_fields_stay`). No action changes a frame
//!   without a whole Ethernet header, and no pop one without a tag (`frames_without_the_header_stay`).
//! - Tags read back, the outer and the inner one: one that is pushed onto a frame with at most one, one that takes the
//!   place of another, and one that is popped, unless a third one comes to stand where the second one was
//!   (`tags_read_back`).
//! - A write leaves the headers where they stand (`writes_keep_the_layout`), keeps the length
//!   (`only_tags_change_the_length`), and changes no byte but those of its field and of the checksums that cover it
//!   (`other_bytes_stay`). The outer tag stands after the addresses, and moves the bytes after them by four
//!   (`tags_stand_after_the_addresses`). Bytes stay bytes (`bytes_stay_bytes`).
//! - *A commit turns the key* (`commits_turn_the_frame`): the datapath actions by which a translation makes a frame of
//!   its base key into one of its current key do just that. The frame's key is then the current one, metadata and
//!   registers aside, if that differs from the base key only in its tags and in fields whose headers are there. A
//!   translation writes a field only where the key has what ovs-fields(7) asks for ("Prerequisites"); a frame may have
//!   that and no such header, as one that was cut short, and then the key stays as it was in that field. Of a frame
//!   with a third tag, which no key shows, the current key has to have two: a tag that goes would bring the third one in
//!   view. A further commit begins where that one ended (`commits_follow_each_other`).
//! - What is sent is what outputs send, each the frame as the actions before it have made it (`outputs_alone_send`). So
//!   an output after a commit sends a frame that has the current key (`an_output_sends_the_current_key`), and so does
//!   each of a translation's outputs (`each_output_sends_its_key`).
//!
//! # How
//!
//! A key is written as one function of all its numbers, for each network header one (`Ipv4Key`, `Ipv6Key`, `ArpBack`),
//! so that a law is a list of which numbers stay. A write is known to spare what says how the packet is read: the type,
//! lengths, the chain of extension headers (`Kept`, `Below`, `Ports`). A tag moves all that follows it, and headers
//! that stand as far on say the same (`Moved`). Checksums stand after the network header, or in it where no field does
//! (`AfterHeaders`, `Ipv4Written`), so that they change no key.
//!
//! The commit goes action by action (`OnTheWay`): each frame on the way shows the fields that the first one shows, and
//! each action does to its key what `table_laws` says of keys (`applied`). There it is proved that the actions of
//! a commit turn one key into the other. Tags in front of a third one are changed in one step, since the frames between
//! would show that. A write to a field that the frame doesn't show does nothing to the key, so such a commit is that to
//! another key, which has these fields as before (`CommitSteps`).
//!
//! # What is left to others
//!
//! That checksums that were right stay right is the matter of `checksums`. That a program rewrites frames as
//! `spec_exec` says is the contract of the crates that execute actions.
//!
//! # The parts
//!
//! Which frames are sent stands in `sending`, that right checksums stay right in `checksums`.
#![tactic(auto)]

pub mod checksums;
mod commits;
mod layouts;
mod lengths;
mod read_back;
pub mod sending;
mod sends;

pub use commits::{
    an_output_sends_the_current_key, commits_follow_each_other, commits_turn_the_frame,
    each_output_sends_its_key,
};
pub use layouts::{bytes_stay_bytes, writes_keep_the_layout};
pub use lengths::{only_tags_change_the_length, other_bytes_stay, tags_stand_after_the_addresses};
pub use read_back::{
    fields_read_back, frames_without_the_header_stay, other_fields_stay, tags_read_back,
};
pub use sends::outputs_alone_send;
