//! What became of the frames of a run.
use pmd_board::{Board, Looked, Step};
use run_case::{Case, RunData};
use spec_actions::DpAction;

/// How many frames were looked up with each result, and how many were sent.
#[derive(Clone, Copy, Debug)]
pub struct Counts {
    /// Hits of the exact-match cache.
    pub exact: u64,
    /// Hits of a megaflow.
    pub mega: u64,
    pub missed: u64,
    /// A frame that is sent to several ports counts for each.
    pub sent: u64,
}

impl Counts {
    pub fn new() -> Counts {
        Counts {
            exact: 0,
            mega: 0,
            missed: 0,
            sent: 0,
        }
    }

    fn add_step(&mut self, step: &Step) {
        let Step::Look { result, .. } = step else {
            return;
        };
        let count = match result {
            Looked::Exact(_) => &mut self.exact,
            Looked::Mega(_) => &mut self.mega,
            Looked::Miss => &mut self.missed,
        };
        *count = count.saturating_add(1);
    }

    fn add_actions(&mut self, actions: &[DpAction]) {
        for action in actions {
            if let DpAction::Output(_) = action {
                self.sent = self.sent.saturating_add(1);
            }
        }
    }

    /// Adds what became of the frames of a board.
    pub fn add_board<C: Case>(&mut self, run: &RunData<C>, board: &Board<C>) {
        for step in board.journal() {
            self.add_step(step);
        }
        for place in 1..run.frames(board.port()) + 1 {
            if let Some((_, actions)) = board.decision(place) {
                self.add_actions(actions);
            }
        }
    }
}
