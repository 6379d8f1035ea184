//! That caches may be shared among threads and go from one to another.
use crate::caches::PortCaches;
use thread_bounds::crosses_threads;

fn port_caches_cross_threads(caches: &PortCaches) {
    crosses_threads(caches)
}
