/// A rule of the old version and one of the new one that are the same but for their numbers and cookies.
#[derive(Clone, Copy)]
pub(crate) struct Pair {
    /// The number of the old version's rule.
    pub(crate) old: u32,
    /// That of the new version's.
    pub(crate) new: u32,
    pub(crate) table: u8,
    pub(crate) priority: u16,
}

/// The one version or the other.
#[derive(Clone, Copy)]
pub(crate) enum Side {
    Old,
    New,
}

ghost use Rattle.std.specs.Prelude.{◌≡◌, ◌==◌};
ghost use Rattle.std.specs.List.{list_any};
ghost use Rattle.rule_changes.specs.Pairs.{number_in};

/// The number of a pair's rule in a version.
fn number_in(side: Side, pair: &Pair) -> u32
    ensures { result ≡ number_in side pair.now }
{
    match side {
        Side::Old => pair.old,
        Side::New => pair.new,
    }
}

/// Whether the rule of a number is in one of the pairs.
pub(crate) fn is_paired(side: Side, pairs: &[Pair], number: u32) -> bool
    ensures { result ≡ list_any (λ p. number_in side p == number) pairs.now }
{
    pairs.iter().any(|pair| number_in(side, pair) == number)
}
