//! That a cache may be shared among threads and go from one to another.
use crate::cache::ExactCache;
use thread_bounds::crosses_threads;

fn exact_cache_crosses_threads(cache: &ExactCache) {
    crosses_threads(cache)
}
