ghost use Rattle.std.specs.Prelude.{◌≡◌, ℕ, List};
ghost use Rattle.spec_keys.specs.declared.field_id.FieldId.{FieldId};
ghost use Rattle.spec_frames.specs.Layout.{layout_of};
ghost use Rattle.spec_actions.specs.declared.action.DpAction.{DpAction};
ghost use Rattle.spec_actions.specs.declared.action.DpAction.TheVariants.{Set};
ghost use Rattle.spec_exec.specs.Rewriting.{after_action};
ghost use Rattle.exec_laws.specs.ReadBack.{AreBytes};

/// A write to any field leaves the headers of a frame where they stand.
pub fn writes_keep_the_layout()
    ensures { (frame : List ℕ) (f : FieldId) (value mask : ℕ)
        → AreBytes frame → layout_of (after_action (Set f value mask) frame) ≡ layout_of frame }
{}

/// Bytes stay bytes, whatever numbers an action has.
pub fn bytes_stay_bytes()
    ensures { (action : DpAction) (frame : List ℕ) → AreBytes frame → AreBytes (after_action action frame) }
{}
