ghost use Rattle.std.specs.Prelude.{◌≡◌, ℕ, false, List, IsTrue};
ghost use Rattle.spec_keys.specs.Keys.{agree, covers, value_of, IsKey, IsClean};
ghost use Rattle.spec_keys.specs.declared.field_id.FieldId.{FieldId};
ghost use Rattle.spec_keys.specs.declared.field_id.FieldId.TheVariants as field;
ghost use Rattle.spec_actions.specs.declared.action.OfAction.{OfAction};
ghost use Rattle.spec_xlate.specs.Translation.{Switch, State, act, look, pipe};
ghost use Rattle.spec_xlate.specs.Consulted.{whole, consulted};
ghost use Rattle.table_laws.specs.Applied.{is_frame_field, HasProperTags};
ghost use Rattle.table_laws.specs.Switches.{OfCommits, OfKeys, HasMasksWithin, HasSoundRules};

/// The actions that commit appends make a frame of the base key into one of the current key: in every field that
/// datapath actions write the frame's key is then the current one, and in the others it is as it was.
pub fn commit_turns_base_into_current()
    ensures written { OfCommits (λ base current turned. (f : FieldId) → IsTrue (is_frame_field f)
        → value_of turned f ≡ value_of current f) }
    ensures rest { OfCommits (λ base current turned. (f : FieldId) → is_frame_field f ≡ false
        → value_of turned f ≡ value_of base f) }
{}

/// Every action and every lookup keeps a vlan_tci that is 0 or that of a tag.
pub fn actions_keep_proper_tags()
    ensures action { (sw : Switch) (depths : ℕ) (action : OfAction) (s : State)
        → HasProperTags s → HasProperTags (act sw (look sw depths) action s) }
    ensures lookup { (sw : Switch) (depths table : ℕ) (s : State)
        → HasProperTags s → HasProperTags (look sw depths table s) }
{}

/// The bits that a translation consults hold the ingress port and the Ethernet type whole, and none of metadata and
/// registers. They are within the widths of the fields, if the rules' masks are and the rules' actions are sound.
pub fn consulted_is_a_mask()
    ensures in_port { (sw : Switch) (key : List ℕ)
        → IsTrue (covers (consulted sw key) (whole field.InPort)) }
    ensures dl_type { (sw : Switch) (key : List ℕ)
        → IsTrue (covers (consulted sw key) (whole field.DlType)) }
    ensures no_registers { (sw : Switch) (key : List ℕ) → IsClean (consulted sw key) }
    ensures within { (sw : Switch) → HasMasksWithin sw → HasSoundRules sw
        → (key : List ℕ) → IsKey (consulted sw key) }
{}

/// Wildcard soundness: packets whose keys agree on the bits that the translation of the first one consults have the
/// same translation, and consult the same.
pub fn consulted_is_sound()
    ensures same_translation { OfKeys (λ sw a b.
        IsTrue (agree a b (consulted sw a)) → pipe sw b ≡ pipe sw a) }
    ensures same_bits { OfKeys (λ sw a b.
        IsTrue (agree a b (consulted sw a)) → consulted sw b ≡ consulted sw a) }
{}

/// A mask that covers the consulted bits serves as well as they do.
pub fn covering_mask_is_sound()
    ensures same_translation { OfKeys (λ sw a b. (mask : List ℕ)
        → IsTrue (covers mask (consulted sw a)) → IsTrue (agree a b mask)
        → pipe sw b ≡ pipe sw a) }
    ensures same_bits { OfKeys (λ sw a b. (mask : List ℕ)
        → IsTrue (covers mask (consulted sw a)) → IsTrue (agree a b mask)
        → consulted sw b ≡ consulted sw a) }
{}
