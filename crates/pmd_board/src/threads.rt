//! That a board may be shared among threads and go from one to another.
use crate::board::Board;
use run_case::Case;
use thread_bounds::crosses_threads;

fn board_crosses_threads<C: Case + Send + Sync>(board: &Board<C>) {
    crosses_threads(board)
}
