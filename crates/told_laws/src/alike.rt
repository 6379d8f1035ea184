ghost use Rattle.std.specs.Prelude.{◌≡◌, ℕ, List};
ghost use Rattle.spec_input.specs.Mirrors.{Mirror};
ghost use Rattle.spec_netflow.specs.Datagrams.{netflow_file};
ghost use Rattle.spec_run.specs.Journals.{actions_for};
ghost use Rattle.spec_run.specs.Mirrored.{mirror_file};
ghost use Rattle.spec_run.specs.Outputs.{frames_out, port_file};
ghost use Rattle.told_laws.specs.Compared.{OfUntouched, OfAlike};

/// Where of none of the frames a difference is told, both runs decide the same for each of them. So the same goes out
/// at each port, and the files of the ports, those of mirrors, and that of the flows are the same.
pub fn runs_without_such_frames_are_alike()
    ensures actions { OfUntouched (λ o n a b.
        (port place : ℕ) → actions_for o a port place ≡ actions_for n b port place) }
    ensures frames { OfUntouched (λ o n a b.
        (port : ℕ) → frames_out o a port ≡ frames_out n b port) }
    ensures port_files { OfUntouched (λ o n a b.
        (out : List ℕ) (port : ℕ) → port_file out o a port ≡ port_file out n b port) }
    ensures mirrors { OfUntouched (λ o n a b.
        (out : List ℕ) (number : ℕ) (m : Mirror) → mirror_file out o a number m ≡ mirror_file out n b number m) }
    ensures flows { OfUntouched (λ o n a b.
        (out : List ℕ) → netflow_file out o (actions_for o a) ≡ netflow_file out n (actions_for n b)) }
{}

/// Where nothing is listed, the files of the ports, those of mirrors, and that of the flows are the same, whatever
/// the traces are.
pub fn nothing_listed_changes_nothing()
    ensures port_files { OfAlike (λ o n a b.
        (out : List ℕ) (port : ℕ) → port_file out o a port ≡ port_file out n b port) }
    ensures mirrors { OfAlike (λ o n a b.
        (out : List ℕ) (number : ℕ) (m : Mirror) → mirror_file out o a number m ≡ mirror_file out n b number m) }
    ensures flows { OfAlike (λ o n a b.
        (out : List ℕ) → netflow_file out o (actions_for o a) ≡ netflow_file out n (actions_for n b)) }
{}
