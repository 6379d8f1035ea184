ghost use Rattle.std.specs.Prelude.{ℕ, List};
ghost use Rattle.spec_actions.specs.declared.action.DpAction.{DpAction};
ghost use Rattle.exec_laws.specs.ReadBack.{AreBytes};
ghost use Rattle.exec_laws.specs.Right.{header_words, transport_words, HasTransportSum, AreSentRight};
ghost use Rattle.exec_laws.specs.Followed.{AreFollowed};

/// Each piece that actions send of a frame has a right IPv4 header checksum if the frame has one, and likewise a right
/// checksum of its transport header. The actions are any outputs, writes and tags that checksums follow.
pub fn what_is_sent_has_right_checksums()
    ensures header { (actions : List DpAction) (frame : List ℕ) → AreBytes frame
        → AreFollowed actions frame → AreSentRight header_words actions frame }
    ensures transport { (actions : List DpAction) (frame : List ℕ) → AreBytes frame
        → HasTransportSum frame → AreFollowed actions frame
        → AreSentRight transport_words actions frame }
{}
