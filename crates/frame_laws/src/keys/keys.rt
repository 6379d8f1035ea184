ghost use Rattle.std.specs.Prelude.{◌≡◌, ◌≢◌, ℕ, ◌<◌, ◌≤◌, ◌^◌, List, ◌++◌, length, take, All};
ghost use Rattle.spec_keys.specs.declared.field_id.FieldId.TheVariants.{InPort};
ghost use Rattle.spec_keys.specs.Fields.{width_of};
ghost use Rattle.spec_keys.specs.Keys.{none, IsKey, IsClean};
ghost use Rattle.spec_frames.specs.declared.layout.L3.TheVariants.{None};
ghost use Rattle.spec_frames.specs.Ethernet.{header_size};
ghost use Rattle.spec_frames.specs.Key.{with_value, key_of};
ghost use Rattle.spec_frames.specs.Layout.{layout_of};
ghost use Rattle.frame_laws.specs.KeysHeaders.{no_headers};

/// Of a frame of fewer than 14 bytes a key says the port alone, and no header stands in it.
pub fn short_frame_has_its_port_alone()
    ensures key { (port : ℕ) (frame : List ℕ)
        → length frame < header_size → key_of port frame ≡ with_value InPort port none }
    ensures layout { (frame : List ℕ)
        → length frame < header_size → layout_of frame ≡ no_headers }
{}

/// Every key is clean: metadata and registers, which no frame carries, are 0. The key of a frame of bytes that came in
/// at a port of 16 bits has a number for each field, within the field's width.
pub fn keys_are_clean()
    ensures clean { (port : ℕ) (frame : List ℕ) → IsClean (key_of port frame) }
    ensures key { (port : ℕ) (frame : List ℕ)
        → port < 2 ^ width_of InPort → All (λ byte. byte < 256) frame → IsKey (key_of port frame) }
{}
