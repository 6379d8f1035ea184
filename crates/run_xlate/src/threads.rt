//! That the translations of a run may be shared among threads and go from one to another.
use crate::xlated::Xlated;
use run_case::Case;
use thread_bounds::crosses_threads;

fn xlated_crosses_threads<C: Case + Send + Sync>(made: &Xlated<C>) {
    crosses_threads(made)
}
