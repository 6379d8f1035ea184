ghost use Rattle.std.specs.Prelude.{◌≡◌, ℕ, false, [], List, All, IfSome, IsNone, IsTrue};
ghost use Rattle.std.specs.List.{flat_map};
ghost use Rattle.spec_keys.specs.Keys.{agree, covers};
ghost use Rattle.spec_tables.specs.Rules.{Rule, is_matched, winner};
ghost use Rattle.spec_xlate.specs.Lookup.{union, probe, consults};
ghost use Rattle.table_laws.specs.Best.{IsBest, AreMasksOf, contenders, AddTheSame};

/// A lookup finds the best of the rules that match, and none exactly where none matches.
pub fn winner_is_best()
    ensures best { (rules : List Rule) (key : List ℕ)
        → IfSome (winner rules key) (λ w. IsBest rules key w) }
    ensures none { (rules : List Rule) (key : List ℕ)
        → IsNone (winner rules key) → All (λ r. is_matched key r.matching ≡ false) rules }
{}

/// A lookup consults the whole mask of the rule that it finds.
pub fn lookup_consults_the_winners_mask()
    ensures { (rules : List Rule) (key : List ℕ)
        → IfSome (winner rules key)
        (λ w. IsTrue (covers (union (consults rules key)) w.matching.mask)) }
{}

/// A lookup consults the same over distinct masks as over rules: masks count once, in whatever order they are tried.
/// The masks are those of the rules that may beat the winner or tie with it.
pub fn lookup_goes_by_masks()
    ensures { (rules : List Rule) (key : List ℕ) (masks : List (List ℕ))
        → AreMasksOf (contenders rules key) masks
        → AddTheSame (flat_map (probe rules key) masks) (consults rules key) }
{}

/// A lookup in a table without rules finds nothing and consults nothing.
pub fn empty_table_decides_nothing()
    ensures finds { (key : List ℕ) → IsNone (winner [] key) }
    ensures consults { (key : List ℕ) → consults [] key ≡ [] }
{}

/// Keys that agree on the bits that the lookup of the first one consults have the same winner, and consult the same.
pub fn lookup_is_sound()
    ensures same_winner { (rules : List Rule) (a b : List ℕ)
        → IsTrue (agree a b (union (consults rules a))) → winner rules b ≡ winner rules a }
    ensures same_bits { (rules : List Rule) (a b : List ℕ)
        → IsTrue (agree a b (union (consults rules a))) → consults rules b ≡ consults rules a }
{}
