ghost use Rattle.std.specs.Prelude.{◌≡◌, ℕ, ◌<◌, ◌≤◌, ◌^◌, true, false, List, length};
ghost use Rattle.spec_keys.specs.declared.field_id.FieldId.{FieldId};
ghost use Rattle.spec_keys.specs.Fields.{width_of};
ghost use Rattle.spec_keys.specs.Protocols.{is_tag_type};
ghost use Rattle.spec_frames.specs.Ethernet.{header_size, tag_count};
ghost use Rattle.spec_frames.specs.Layout.{layout_of};
ghost use Rattle.spec_frames.specs.Key.{key_of};
ghost use Rattle.spec_actions.specs.declared.action.DpAction.{DpAction};
ghost use Rattle.spec_actions.specs.declared.action.DpAction.TheVariants.{PopVlan};
ghost use Rattle.spec_exec.specs.Places.{place_in};
ghost use Rattle.spec_exec.specs.Rewriting.{after_action};
ghost use Rattle.spec_xlate.specs.Tags.{popped};
ghost use Rattle.exec_laws.specs.Become.{has_third_tag};
ghost use Rattle.exec_laws.specs.ReadBack.{IsWholeFrame, written, shows, ReadsBack, PushReadsBack, ReplaceReadsBack};

/// A field whose header is there reads back: the frame's key has the bits that were written, and all other bits as
/// before. Those are the addresses of Ethernet, the fields of ARP, of IPv4 and of IPv6, and the ports of TCP and UDP
/// over either IP, unless the packet is a fragment.
pub fn fields_read_back()
    ensures { (port : ℕ) (frame : List ℕ) (f : FieldId) (value mask : ℕ) → IsWholeFrame frame
        → shows port frame f ≡ true → mask < 2 ^ width_of f → ReadsBack port frame f value mask }
{}

/// A write to a field whose header isn't there changes nothing. One that the key doesn't show, as the ports of a first
/// fragment, leaves the key as it is.
pub fn other_fields_stay()
    ensures absent { (frame : List ℕ) (f : FieldId) (value mask : ℕ)
        → place_in (layout_of frame) f ≡ None → written f value mask frame ≡ frame }
    ensures hidden { (port : ℕ) (frame : List ℕ) (f : FieldId) (value mask : ℕ)
        → IsWholeFrame frame → shows port frame f ≡ false
        → key_of port (written f value mask frame) ≡ key_of port frame }
{}

/// A frame of fewer than 14 bytes, which has no whole Ethernet header, stays as it is whatever the action, and one without
/// a tag stays where a tag is popped.
pub fn frames_without_the_header_stay()
    ensures short { (action : DpAction) (frame : List ℕ)
        → length frame < header_size → after_action action frame ≡ frame }
    ensures untagged { (frame : List ℕ)
        → tag_count frame ≡ 0 → after_action PopVlan frame ≡ frame }
{}

/// A tag of a type that tags have reads back (IEEE 802.1Q, 9.3). One that is pushed onto a frame with at most one is the outer
/// tag of the key, and the one that was outside is the inner one. One that takes the place of another is the outer tag, and
/// the inner one stays. Of a tag that is popped the place is taken by the inner one, if no third one comes to stand where that
/// was. All other fields of the key stay.
pub fn tags_read_back()
    ensures push { (port tpid tci : ℕ) (frame : List ℕ)
        → header_size ≤ length frame → tag_count frame ≤ 1 → is_tag_type tpid ≡ true → tci < 2 ^ 16
        → PushReadsBack port frame tpid tci }
    ensures replace { (port tpid tci : ℕ) (frame : List ℕ)
        → header_size ≤ length frame → 1 ≤ tag_count frame → is_tag_type tpid ≡ true → tci < 2 ^ 16
        → ReplaceReadsBack port frame tpid tci }
    ensures pop { (port : ℕ) (frame : List ℕ)
        → header_size ≤ length frame → 1 ≤ tag_count frame → has_third_tag frame ≡ false
        → key_of port (after_action PopVlan frame) ≡ popped (key_of port frame) }
{}
