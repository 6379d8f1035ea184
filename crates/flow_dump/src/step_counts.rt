//! How many steps of each result the journals have.
ghost use Rattle.std.specs.Prelude.{◌≡◌, ◌^◌, []};
ghost use Rattle.board_steps.specs.StepViews.{step_view, steps_view};
ghost use Rattle.flow_dump.specs.StepCounts as counts;

use board_steps::{Settled, Step};
use run_boards::Finished;
use run_case::Case;
use spec_board::Looked;

/// How many steps there are of each result.
///
/// Of one journal each is a number of 64 bits, and so those of all journals together are numbers of 128 bits.
#[derive(Clone, Copy)]
pub(crate) struct StepCounts {
    pub(crate) exact: u128,
    pub(crate) mega: u128,
    pub(crate) miss: u128,
    pub(crate) installed: u128,
    pub(crate) present: u128,
    pub(crate) full: u128,
}

impl StepCounts {
    // The counts of no step.
    fn none() -> StepCounts
        ensures { result ≡ counts.counts_of [] }
    {
        StepCounts {
            exact: 0,
            mega: 0,
            miss: 0,
            installed: 0,
            present: 0,
            full: 0,
        }
    }

    // Counts one more step.
    fn count(&mut self, step: &Step)
        requires { counts.AreAtMost (2 ^ 64) self.old }
        ensures { self.new ≡ counts.with_step (step_view step.now) self.old }
    {
        match step {
            Step::Look { result, .. } => match result {
                Looked::Exact(_) => self.exact += 1,
                Looked::Mega(_) => self.mega += 1,
                Looked::Miss => self.miss += 1,
            },
            Step::Settle { result, .. } => match result {
                Settled::Installed { .. } => self.installed += 1,
                Settled::Present(_) => self.present += 1,
                Settled::Full => self.full += 1,
            },
            _ => {}
        }
    }

    fn plus(self, more: StepCounts) -> StepCounts
        requires sum { counts.AreAtMost (2 ^ 127) self }
        requires more { counts.AreAtMost (2 ^ 64) more }
        ensures { result ≡ counts.plus self more }
    {
        StepCounts {
            exact: self.exact + more.exact,
            mega: self.mega + more.mega,
            miss: self.miss + more.miss,
            installed: self.installed + more.installed,
            present: self.present + more.present,
            full: self.full + more.full,
        }
    }
}

// The counts of the steps of a journal.
fn count_steps(steps: &[Step]) -> StepCounts
    ensures counts { result ≡ counts.counts_of (steps_view steps.now) }
    ensures few { counts.AreAtMost (2 ^ 64) result }
{
    let mut counts = StepCounts::none();
    'steps: for step in steps {
        counts.count(step);
    }
    counts
}

/// The counts of the steps of all journals, by one walk along each.
pub(crate) fn count_all_steps<C: Case>(finished: &Finished<C>) -> StepCounts
    ensures { result ≡ counts.counts_of_all finished.now }
{
    let of_ports = finished.boards();
    let mut counts = StepCounts::none();
    'boards: for board in of_ports {
        counts = counts.plus(count_steps(board.journal()));
    }
    counts
}
