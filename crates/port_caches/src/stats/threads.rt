//! That totals may be shared among threads and go from one to another.
use crate::stats::totals::Totals;
use thread_bounds::crosses_threads;

fn totals_crosses_threads(totals: &Totals) {
    crosses_threads(totals)
}
