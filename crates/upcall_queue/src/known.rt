//! What passes know. No value of these types is made: they are here since a view has to be of a type.
use crate::upcalls::Upcall;
use std::collections::LinkedList;

/// An upcall that was taken, with the number of the pass that put it and its place, from 0, among the puts of that pass.
pub struct Taken {
    pub putter: u64,
    pub place: u64,
    pub item: Upcall,
}

/// What a pass put and took before another took it in.
pub struct Past {
    pub number: u64,
    pub puts: LinkedList<Upcall>,
    pub took: LinkedList<Taken>,
}

/// What a pass knows: how many passes are in it, 0 once it was taken in; its number; how many passes there are, or 0 where
/// the first pass isn't in it; what it put and took, and the passes that it has taken in.
pub struct Known {
    pub parts: u64,
    pub number: u64,
    pub passes: u64,
    pub puts: LinkedList<Upcall>,
    pub took: LinkedList<Taken>,
    pub others: LinkedList<Past>,
}
