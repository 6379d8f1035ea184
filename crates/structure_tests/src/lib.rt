//! Tests of what lookups and threads stand on: maps by masked keys, the subtable of one mask, prefixes of addresses, and
//! the queue of upcalls, by one thread and by several, with ample memory.
//!
//! A contract says what is found or taken where there was memory for it, so a body that always says that there is none
//! would meet it. Such a body fails here. That a queue was full, or empty, at one moment is a statement only of a pass that
//! has taken in all the others; here it is seen of others too. The tests stand in a crate of their own, since a crate with
//! tests is proved twice, and apart from `table_tests`, so that the two are proved side by side.
#![tactic(auto)]

#[cfg(test)]
mod addresses;
#[cfg(test)]
mod by_threads;
#[cfg(test)]
mod in_turn;
#[cfg(test)]
mod masked_maps;
#[cfg(test)]
mod prefixes;
#[cfg(test)]
mod subtables;
