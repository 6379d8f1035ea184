ghost use Rattle.std.specs.Prelude.{◌≡◌, ℕ, ◌≤◌, false, List, [], ◌∷◌, ◌++◌, map, length};
ghost use Rattle.spec_keys.specs.declared.field_id.FieldId.{FieldId};
ghost use Rattle.spec_frames.specs.Ethernet.{header_size};
ghost use Rattle.spec_frames.specs.Key.{key_of};
ghost use Rattle.spec_actions.specs.declared.action.DpAction.TheVariants.{Output};
ghost use Rattle.spec_xlate.specs.Commit.{commit};
ghost use Rattle.spec_exec.specs.Sent.{Piece, sent};
ghost use Rattle.exec_laws.specs.ReadBack.{shows};
ghost use Rattle.exec_laws.specs.Sends.{after_actions, keys_of};
ghost use Rattle.exec_laws.specs.Become.{has_third_tag, turned, CanTurn, without_registers, CanBecome, KeyedOutput, outputs_of, committed, CanBecomeEach, keys_sent};

/// The actions that commit appends turn a frame of the base key into one of the current key. In its tags, and in each
/// field whose header is there, the frame's key is then the current one, and in the others it is as it was. Where
/// those are the same, metadata and registers aside, it is the current key as a whole.
pub fn commits_turn_the_frame()
    ensures field_by_field { (port : ℕ) (frame key : List ℕ) → CanTurn port frame key
        → key_of port (committed port frame key) ≡ turned port frame key }
    ensures as_a_whole { (port : ℕ) (frame key : List ℕ) → CanBecome port frame key
        → key_of port (committed port frame key) ≡ without_registers key }
{}

/// What a second commit needs of the frame that a first one leaves: a whole Ethernet header, the fields that the frame
/// showed, and no third tag if it had none. Its base is the key of that frame, since commit reads no registers. A commit
/// to its base, as between two outputs at once, is no action.
pub fn commits_follow_each_other()
    ensures whole { (port : ℕ) (frame key : List ℕ) → CanTurn port frame key
        → header_size ≤ length (committed port frame key) }
    ensures shown { (port : ℕ) (frame key : List ℕ) → CanTurn port frame key → (f : FieldId)
        → shows port (committed port frame key) f ≡ shows port frame f }
    ensures two_tags { (port : ℕ) (frame key : List ℕ) → CanTurn port frame key → has_third_tag frame ≡ false
        → has_third_tag (committed port frame key) ≡ false }
    ensures base { (key next : List ℕ) → commit (without_registers key) next ≡ commit key next }
    ensures same { (key : List ℕ) → commit key key ≡ [] }
{}

/// So what an output after a commit sends is one frame, and its key is the current one.
pub fn an_output_sends_the_current_key()
    ensures frame { (base key frame : List ℕ) (n : ℕ)
        → sent (commit base key ++ Output n ∷ []) frame
        ≡ record { port = n; bytes = after_actions (commit base key) frame } ∷ [] }
    ensures key { (port : ℕ) (frame key : List ℕ) (n : ℕ) → CanBecome port frame key
        → keys_of port (sent (commit (key_of port frame) key ++ Output n ∷ []) frame)
        ≡ without_registers key ∷ [] }
{}

/// The outputs of a translation, each after a commit, go out at their ports in order, and each with the key that was the
/// current one when it came. Of a frame with a third tag that is said where each of these keys has two.
pub fn each_output_sends_its_key()
    ensures ports { (base frame : List ℕ) (outputs : List KeyedOutput)
        → map (λ piece. piece.port) (sent (outputs_of base outputs) frame) ≡ map (λ o. o.port) outputs }
    ensures keys { (port : ℕ) (frame : List ℕ) (outputs : List KeyedOutput)
        → CanBecomeEach port frame outputs
        → keys_sent port frame outputs ≡ map (λ o. without_registers o.key) outputs }
{}
