ghost use Rattle.std.specs.Prelude.{◌≡◌, ℕ, ◌<◌, List, map, length, All};
ghost use Rattle.spec_frames.specs.Ethernet.{header_size};
ghost use Rattle.spec_frames.specs.Key.{key_of};
ghost use Rattle.spec_xlate.specs.Translation.{Switch};
ghost use Rattle.spec_exec.specs.Sent.{Piece};
ghost use Rattle.exec_laws.specs.Sends.{keys_of};
ghost use Rattle.exec_laws.specs.Become.{turned, without_registers};
ghost use Rattle.exec_laws.specs.Made.{IsMadeOf, PushTags};
ghost use Rattle.exec_laws.specs.Received.{pieces_of, frame_outputs, IsReceived, HasItsHeaders, OfFrames};

/// What a switch sends of a frame is one frame for each output of the translation, at its port and in order. The key of what
/// is sent has the tags of the current key, which is one made of the frame's key, and the value of that in each field
/// whose header is in the frame; in the others it is as the frame came. This is said where the rules push tags of the types
/// that tags have, as sound ones do, and no third tag comes in view. Where the frame has the headers that its key tells
/// of, it is the current key as a whole, metadata and registers aside, which are 0. A frame of fewer than 14 bytes goes
/// out as it came.
pub fn what_is_sent_has_the_current_keys()
    ensures ports { (sw : Switch) (port : ℕ) (frame : List ℕ)
        → map (λ piece. piece.port) (pieces_of sw port frame) ≡ map (λ o. o.port) (frame_outputs sw port frame) }
    ensures made { (sw : Switch) (port : ℕ) (frame : List ℕ) → PushTags sw → IsReceived port frame
        → All (λ o. IsMadeOf (key_of port frame) o.key) (frame_outputs sw port frame) }
    ensures field_by_field { OfFrames (λ sw port frame. keys_of port (pieces_of sw port frame)
        ≡ map (λ o. turned port frame o.key) (frame_outputs sw port frame)) }
    ensures as_a_whole { OfFrames (λ sw port frame. HasItsHeaders port frame
        → keys_of port (pieces_of sw port frame)
        ≡ map (λ o. without_registers o.key) (frame_outputs sw port frame)) }
    ensures short { (sw : Switch) (port : ℕ) (frame : List ℕ) → length frame < header_size
        → pieces_of sw port frame ≡ map (λ o. record { port = o.port; bytes = frame }) (frame_outputs sw port frame) }
{}
