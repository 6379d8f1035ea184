//! That a queue may be shared among threads, and that a pass may go from one to another.
use crate::pass::Pass;
use crate::queue::UpcallQueue;
use run_case::Case;
use thread_bounds::crosses_threads;

// Any value of the type may go to another thread. A pass is one thread's alone, so nothing more is asked of it.
fn goes_to_threads<T: Send>(value: &T) {
    let _ = value;
}

fn queue_crosses_threads<C: Case + Send + Sync>(queue: &UpcallQueue<C>) {
    crosses_threads(queue)
}

fn pass_goes_to_threads<C: Case + Send + Sync>(pass: &Pass<C>) {
    goes_to_threads(pass)
}
