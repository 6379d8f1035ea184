ghost use Rattle.std.specs.Prelude.{◌≡◌, ℕ, ◌+◌, ◌<◌, ◌≤◌, List, length, slice_index};
ghost use Rattle.spec_keys.specs.declared.field_id.FieldId.{FieldId};
ghost use Rattle.spec_frames.specs.Ethernet.{header_size, type_at, tag_size, tag_count};
ghost use Rattle.spec_actions.specs.declared.action.DpAction.TheVariants.{PopVlan, PushVlan};
ghost use Rattle.spec_exec.specs.Rewriting.{after_action};
ghost use Rattle.exec_laws.specs.Elsewhere.{IsElsewhere};
ghost use Rattle.exec_laws.specs.ReadBack.{written};

/// A write keeps the length of any frame. A tag that is pushed adds four bytes, and one that is popped takes them away.
pub fn only_tags_change_the_length()
    ensures set { (f : FieldId) (value mask : ℕ) (frame : List ℕ)
        → length (written f value mask frame) ≡ length frame }
    ensures push { (tpid tci : ℕ) (frame : List ℕ)
        → header_size ≤ length frame → length (after_action (PushVlan tpid tci) frame) ≡ length frame + tag_size }
    ensures pop { (frame : List ℕ)
        → 1 ≤ tag_count frame → length (after_action PopVlan frame) + tag_size ≡ length frame }
{}

/// A write changes no byte but those of its field and of the checksums that cover it.
pub fn other_bytes_stay()
    ensures { (f : FieldId) (value mask : ℕ) (frame : List ℕ) (i : ℕ)
        → IsElsewhere frame f i → slice_index (written f value mask frame) i ≡ slice_index frame i }
{}

/// The outer tag stands after the addresses, which are the first 12 bytes. The bytes that follow it are those that follow the
/// addresses where it isn't there.
pub fn tags_stand_after_the_addresses()
    ensures push_before { (tpid tci : ℕ) (frame : List ℕ) → header_size ≤ length frame → (i : ℕ)
        → i < type_at → slice_index (after_action (PushVlan tpid tci) frame) i ≡ slice_index frame i }
    ensures push_after { (tpid tci : ℕ) (frame : List ℕ) → header_size ≤ length frame → (i : ℕ)
        → type_at ≤ i → slice_index (after_action (PushVlan tpid tci) frame) (i + tag_size) ≡ slice_index frame i }
    ensures pop_before { (frame : List ℕ) → 1 ≤ tag_count frame → (i : ℕ)
        → i < type_at → slice_index (after_action PopVlan frame) i ≡ slice_index frame i }
    ensures pop_after { (frame : List ℕ) → 1 ≤ tag_count frame → (i : ℕ)
        → type_at ≤ i → slice_index (after_action PopVlan frame) i ≡ slice_index frame (i + tag_size) }
{}
