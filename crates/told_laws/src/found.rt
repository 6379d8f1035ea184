ghost use Rattle.std.specs.Prelude.{◌≡◌, ℕ, List};
ghost use Rattle.std.specs.List.{filter_map};
ghost use Rattle.spec_xlate.specs.Translation.{Switch, pipe};
ghost use Rattle.spec_tools.specs.declared.lookup.Lookup.{Lookup};
ghost use Rattle.spec_tools.specs.Paths.{path_of};

/// The rules that the lookups of a translation find are, in order and each as often, those that it visits, also where
/// it stops.
pub fn rules_found_are_those_visited()
    ensures { (sw : Switch) (key : List ℕ)
        → filter_map (λ (l : Lookup). l.rule) (path_of sw key) ≡ (pipe sw key).visits }
{}
