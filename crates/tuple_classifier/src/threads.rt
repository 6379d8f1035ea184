//! That tables may be shared among threads and go from one to another.
use crate::tables::Tables;
use thread_bounds::crosses_threads;

fn tables_cross_threads(tables: &Tables<'_>) {
    crosses_threads(tables)
}
