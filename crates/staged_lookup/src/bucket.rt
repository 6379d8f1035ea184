ghost use Rattle.std.specs.Prelude.{◌≡◌, ◌++◌, [], ◌∷◌, IfOk, is_ok, if◌then◌else◌, filter};
ghost use Rattle.std.specs.Option.{option_map_or};
ghost use Rattle.staged_lookup.specs.Ranks.{is_other};
ghost use Rattle.staged_lookup.specs.Counts.{ranks_in};

use crate::rank::Rank;
use std::alloc::{AllocError, Global};
use std::slice;

/// The ranks of the rules with one key, in the order in which they came: mostly one.
#[derive(Drop)]
pub(crate) enum Bucket {
    One(Rank),
    Several(Vec<Rank>),
}

impl Bucket {
    /// The ranks.
    pub(crate) fn ranks(&self) -> &[Rank]
        ensures { result.now ≡ ranks_in self.now }
    {
        match self {
            Bucket::One(rank) => slice::from_ref(rank),
            Bucket::Several(ranks) => ranks,
        }
    }

    /// Adds a rank. The only error is out of memory, and then the ranks stay.
    pub(crate) fn push(&mut self, alloc: Global, rank: Rank) -> Result<(), AllocError>
        ensures { ranks_in self.new
            ≡ (if is_ok result then ranks_in self.old ++ rank ∷ [] else ranks_in self.old) }
    {
        match self {
            Bucket::One(first) => {
                *self = Bucket::Several(two_ranks(alloc, *first, rank)?);
                Ok(())
            }
            Bucket::Several(ranks) => push_rank(ranks, rank),
        }
    }

    /// What is left without the rank of a number, if anything is.
    pub(crate) fn without(self, number: u32) -> Option<Bucket>
        ensures { option_map_or ranks_in result [] ≡ filter (is_other number) (ranks_in self) }
    {
        match self {
            Bucket::One(rank) => {
                if rank.number == number {
                    None
                } else {
                    Some(Bucket::One(rank))
                }
            }
            Bucket::Several(mut ranks) => {
                keep_others(&mut ranks, number);
                if ranks.is_empty() {
                    None
                } else {
                    Some(Bucket::Several(ranks))
                }
            }
        }
    }
}

fn push_rank(ranks: &mut Vec<Rank>, rank: Rank) -> Result<(), AllocError>
    ensures { ranks.new.items
        ≡ (if is_ok result then ranks.old.items ++ rank ∷ [] else ranks.old.items) }
{
    ranks.push(rank)?;
    Ok(())
}

fn two_ranks(alloc: Global, first: Rank, second: Rank) -> Result<Vec<Rank>, AllocError>
    ensures { IfOk result (λ v. v.items ≡ first ∷ second ∷ []) }
{
    let mut ranks = Vec::with_capacity(alloc, 2)?;
    ranks.push(first)?;
    ranks.push(second)?;
    Ok(ranks)
}

fn keep_others(ranks: &mut Vec<Rank>, number: u32)
    ensures { ranks.new.items ≡ filter (is_other number) ranks.old.items }
{
    ranks.retain(|rank| rank.number != number);
}
