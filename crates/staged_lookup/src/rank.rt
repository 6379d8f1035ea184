ghost use Rattle.std.specs.Prelude.{◌≡◌};
ghost use Rattle.staged_lookup.specs.Ranks.{is_outranked, better_rank, best_rank};

/// What decides among rules that match: the greatest priority wins, and of equal ones the least number.
#[derive(Clone, Copy)]
pub struct Rank {
    pub priority: u16,
    pub number: u32,
}

fn is_outranked(rank: Rank, other: Rank) -> bool
    ensures { result ≡ is_outranked rank other }
{
    rank.priority < other.priority
        || (rank.priority == other.priority && other.number < rank.number)
}

/// The better of a rank and the best one of others, if there is one.
pub fn better(rank: Rank, best: Option<Rank>) -> Option<Rank>
    ensures { result ≡ better_rank rank best }
{
    match best {
        None => Some(rank),
        Some(other) => {
            if is_outranked(rank, other) {
                Some(other)
            } else {
                Some(rank)
            }
        }
    }
}

/// The best of a list.
pub(crate) fn best_of(ranks: &[Rank]) -> Option<Rank>
    ensures { result ≡ best_rank ranks.now }
{
    let mut best = None;
    'ranks: for i in (0..ranks.len()).rev() {
        best = better(ranks[i], best);
    }
    best
}
