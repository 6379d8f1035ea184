//! What a switch sends of a frame: translations and execution taken together.
//!
//! # What?
//!
//! `spec_xlate` says which datapath actions a translation gives, and `spec_exec` what datapath actions do to a frame. Each
//! may look right, and the two may yet disagree on what an action is for. Here stands what both together are to give:
//! that each output of a translation sends the frame with the key that the flow actions have made by then. Each fact is
//! the contract of a function that does nothing, so to call one is to have its facts.
//!
//! # What is promised
//!
//! - *The form of the actions* (`each_output_follows_a_commit`): they are the outputs of the translation, each after a
//!   commit of the current key. The outputs are collected along the states of the translation (`specs/Outputs`), so that
//!   it is said which key is to be sent where, before anything is said of datapath actions.
//! - *The keys of outputs* (`outputs_are_made_of_the_packet`): within their widths, with proper tags, and as the packet's
//!   in all that flow actions can't write for such a packet, as `tp_src` for one that is neither TCP nor UDP. And their
//!   ports: those of the switch.
//! - *What is sent* (`what_is_sent_has_the_current_keys`), output by output. Three exceptions are stated as they are. A
//!   field whose header isn't in the frame, though the key tells of it, stays as it came: in a network header that was cut
//!   short or is malformed, in TCP of fewer than 20 bytes and UDP of fewer than 8. A frame with a third tag, which its key
//!   doesn't show, has to keep two, be they others: an output of a key with fewer would send the third one as one of
//!   them. And what is pushed has to be of a type that tags have, as by sound rules (`sound_rules_push_tags`): else
//!   the frame doesn't show that it is a tag.
//!
//! # Which definitions this refuses
//!
//! Each of these would break a law.
//!
//! - Of the actions: an output without a commit before it, be it that of `in_port` or of `all` alone; a commit that goes
//!   from the current key to the base key, or leaves that as it was; a commit, or a new base key, where nothing is sent; an
//!   action over the limit that is dropped, where the translation is to end; a translation that ended as a whole and keeps
//!   its actions.
//! - Of the keys: a write that doesn't ask what the packet is, reaches beyond its field, or is made to `dl_type`,
//!   `nw_proto`, `ip_frag` or `in_port`; a tag written without bit 0x1000, or without a type; an output at a port that the switch doesn't
//!   have.
//! - Of what is sent: a commit that forgets a field, or pops and pushes in the other order; an output that sends the frame
//!   as it came, or as later actions make it.
//!
//! # How
//!
//! One induction over actions and lookups shows that a state comes from another by the outputs between them, unless the
//! translation has ended as a whole (`Emitted`); a second one shows what stays true of the current key (`MadeOutputs`).
//! `exec_laws` says what one commit does to a frame of its base key. After a write that found no header the frame's key
//! is no longer the base key, but differs from it only in what the frame doesn't show; such commits do the same
//! (`LaterCommits`).
//!
//! # What is left to others
//!
//! Which rule is found, what a write writes, in which order `all` sends and when a list of actions ends is as `spec_xlate`
//! says: its rows and `table_laws` speak of that. What happens to lengths and to other bytes is the matter of
//! `exec_laws`.

mod actions;
mod sends;

pub use actions::{
    each_output_follows_a_commit, outputs_are_made_of_the_packet, sound_rules_push_tags,
};
pub use sends::what_is_sent_has_the_current_keys;
