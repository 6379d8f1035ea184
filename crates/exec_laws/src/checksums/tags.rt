ghost use Rattle.std.specs.Prelude.{◌≡◌, ℕ, ◌≤◌, true, false, List};
ghost use Rattle.spec_keys.specs.Protocols.{is_tag_type};
ghost use Rattle.spec_frames.specs.Ethernet.{tag_count};
ghost use Rattle.spec_actions.specs.declared.action.DpAction.TheVariants.{PopVlan, PushVlan};
ghost use Rattle.spec_exec.specs.Rewriting.{after_action};
ghost use Rattle.exec_laws.specs.Become.{has_third_tag};
ghost use Rattle.exec_laws.specs.Right.{header_words, transport_words};

/// A tag of a type that tags have that is pushed onto a frame with at most one, or one that is popped where no third one then
/// stands after the first two, changes none of the words that checksums cover.
///
/// The exception is a third tag, after which the headers of a packet are not read.
pub fn tags_change_nothing_that_is_covered()
    ensures push_header { (tpid tci : ℕ) (frame : List ℕ) → is_tag_type tpid ≡ true → tag_count frame ≤ 1
        → header_words (after_action (PushVlan tpid tci) frame) ≡ header_words frame }
    ensures push_transport { (tpid tci : ℕ) (frame : List ℕ) → is_tag_type tpid ≡ true → tag_count frame ≤ 1
        → transport_words (after_action (PushVlan tpid tci) frame) ≡ transport_words frame }
    ensures pop_header { (frame : List ℕ) → has_third_tag frame ≡ false
        → header_words (after_action PopVlan frame) ≡ header_words frame }
    ensures pop_transport { (frame : List ℕ) → has_third_tag frame ≡ false
        → transport_words (after_action PopVlan frame) ≡ transport_words frame }
{}
