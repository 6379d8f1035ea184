//! The log of the ends of lives.
ghost use Rattle.std.specs.Prelude.{◌≡◌, ◌<◌, length, slice_get, Some};
ghost use Rattle.std.specs.List.Sorted.{IsNonDecreasingBy};
ghost use Rattle.rule_tables.specs.Ends.{IsBetween};

/// That the life of a rule ended.
#[derive(Clone, Copy)]
pub(crate) struct Ending {
    /// The place of the rule among all that are stored.
    pub(crate) place: u32,
    /// The number of the edit that ended its life.
    pub(crate) edit: u32,
}

/// The ends by the edits past `before`, up to `after`. They stand in the order of the edits.
pub(crate) fn ended_between(ends: &[Ending], before: u32, after: u32) -> &[Ending]
    requires { IsNonDecreasingBy (λ e. e.edit) ends.now }
    ensures { IsBetween (λ e. e.edit) before after ends.now result.now }
{
    let first = ends.partition_point(|end| end.edit <= before);
    let (_, later) = ends.split_at(first);
    let count = later.partition_point(|end| end.edit <= after);
    let (ended, _) = later.split_at(count);
    ended
}

/// The end at a place.
pub(crate) fn end_at(ends: &[Ending], place: usize) -> Ending
    requires { place < length ends.now }
    ensures { slice_get ends.now place ≡ Some result }
{
    ends[place]
}
