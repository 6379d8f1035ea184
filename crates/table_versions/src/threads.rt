//! That tables may be shared among threads and go from one to another, where what keeps them may.
use crate::tables::{RunTables, Tables};
use run_case::Case;
use thread_bounds::crosses_threads;

fn tables_cross_threads<C: Case + Send + Sync, T: RunTables<C> + Send + Sync>(
    tables: &Tables<C, T>,
) {
    crosses_threads(tables)
}
