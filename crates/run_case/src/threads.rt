//! That the values of a run may be shared among threads and go from one to another.
use crate::case::Case;
use crate::keyed::Keyed;
use crate::run_data::RunData;
use thread_bounds::crosses_threads;

fn run_data_crosses_threads<C: Case + Send + Sync>(run: &RunData<C>) {
    crosses_threads(run)
}

fn keyed_crosses_threads<C: Case + Send + Sync>(at: &Keyed<C>) {
    crosses_threads(at)
}
