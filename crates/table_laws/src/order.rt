ghost use Rattle.std.specs.Prelude.{◌≡◌, ℕ, ◌+◌, ◌≤◌, ◌++◌, List, length, take};
ghost use Rattle.spec_tables.specs.Bundles.{bundle, edits_through, AreBundles};
ghost use Rattle.table_laws.specs.Following.{OfBundles};

/// Edits through bundles rise, up to all of them.
pub fn bundles_have_their_edits()
    ensures in_order { (bundles : List ℕ) (edits v w : ℕ) → AreBundles bundles edits
        → v ≤ w → w ≤ length bundles → edits_through bundles v ≤ edits_through bundles w }
    ensures within { (bundles : List ℕ) (edits v : ℕ) → AreBundles bundles edits
        → v ≤ length bundles → edits_through bundles v ≤ edits }
    ensures few { (bundles : List ℕ) (edits : ℕ) → AreBundles bundles edits
        → length bundles ≤ edits }
{}

/// The edits through a bundle are those before it, and then its own.
pub fn edits_of_bundles_follow_each_other()
    ensures after { OfBundles (λ edits bundles v.
        take (edits_through bundles v) edits ++ bundle edits bundles (v + 1)
        ≡ take (edits_through bundles (v + 1)) edits) }
    ensures count { OfBundles (λ edits bundles v.
        edits_through bundles v + length (bundle edits bundles (v + 1))
        ≡ edits_through bundles (v + 1)) }
{}
