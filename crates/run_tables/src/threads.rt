//! That the tables of a run may be shared among threads and go from one to another.
use crate::tables::ClassifierTables;
use run_case::Case;
use thread_bounds::crosses_threads;

fn tables_cross_threads<C: Case + Send + Sync>(tables: &ClassifierTables<'_, C>) {
    crosses_threads(tables)
}
