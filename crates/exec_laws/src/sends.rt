ghost use Rattle.std.specs.Prelude.{◌≡◌, ℕ, false, List, [], ◌∷◌, ◌++◌, map, All};
ghost use Rattle.spec_actions.specs.declared.action.DpAction.{DpAction};
ghost use Rattle.spec_actions.specs.declared.action.DpAction.TheVariants.{Output};
ghost use Rattle.spec_exec.specs.Sent.{Piece, is_output, sent};
ghost use Rattle.exec_laws.specs.Sends.{after_actions};

/// What is sent is what outputs send. Actions without an output send nothing, and what they make of the frame is what
/// the actions after them begin with. Outputs alone send the frame itself at each of their ports, in order.
pub fn outputs_alone_send()
    ensures nothing { (actions : List DpAction) (frame : List ℕ)
        → All (λ action. is_output action ≡ false) actions → sent actions frame ≡ [] }
    ensures before { (actions others : List DpAction) (frame : List ℕ)
        → All (λ action. is_output action ≡ false) actions
        → sent (actions ++ others) frame ≡ sent others (after_actions actions frame) }
    ensures outputs { (ports : List ℕ) (frame : List ℕ)
        → sent (map Output ports) frame ≡ map (λ n. record { port = n; bytes = frame }) ports }
{}
