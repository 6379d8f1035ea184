//! How often the decided frames are sent, and how many are dropped.
ghost use Rattle.std.specs.Prelude.{◌≡◌, ◌≤◌, ◌^◌, ℕ, List, length};
ghost use Rattle.spec_xlate.specs.Translation.{action_limit};
ghost use Rattle.spec_exec.specs.Sent.{sent};
ghost use Rattle.spec_run.specs.Journals.{IsWhole};
ghost use Rattle.spec_run.specs.Summary.{pieces_of, sent_by, dropped_by, sent_count, dropped_count};
ghost use Rattle.run_case.specs.Places.{HasPlace};
ghost use Rattle.pmd_board.specs.BoardView.{journal_view};

use action_exec::is_output;
use pmd_board::Board;
use run_boards::Finished;
use run_case::{Case, RunData};
use spec_actions::DpAction;

/// How often frames are sent, and how many are sent nowhere.
#[derive(Clone, Copy)]
pub(crate) struct FrameCounts {
    pub(crate) sent: u128,
    pub(crate) dropped: u128,
}

// How many pieces a list of actions sends: as many as it has outputs, whatever the frame is.
fn outputs(actions: &[DpAction]) -> usize
    ensures sent { (bytes : List ℕ) → length (sent actions.now bytes) ≡ result }
    ensures few { result ≤ length actions.now }
{
    actions.iter().filter(|action| is_output(action)).count()
}

// How often the frame of a place is sent.
fn times_sent<C: Case>(board: &Board<C>, place: u32) -> usize
    requires whole { IsWhole C.run (journal_view board.now) }
    requires place { HasPlace C.run board.now.port place }
    ensures pieces { result ≡ length (pieces_of C.run (journal_view board.now) place) }
    ensures few { result ≤ action_limit }
{
    let _ = board.journal();
    match board.decision(place) {
        Some((_, actions)) => outputs(actions),
        None => unreachable!(),
    }
}

// The counts of the frames of a port.
fn count_frames<C: Case>(run: &RunData<C>, board: &Board<C>) -> FrameCounts
    requires { IsWhole C.run (journal_view board.now) }
    ensures sent { result.sent ≡ sent_by C.run (journal_view board.now) }
    ensures dropped { result.dropped ≡ dropped_by C.run (journal_view board.now) }
    ensures few { (result.sent ≤ 2 ^ 64) × (result.dropped ≤ 2 ^ 64) }
{
    let frames = run.frames(board.port());
    let mut counts = FrameCounts {
        sent: 0,
        dropped: 0,
    };
    'places: for before in 0..frames {
        let times = times_sent(board, before + 1);
        counts.sent += times as u128;
        if times == 0 {
            counts.dropped += 1;
        }
    }
    counts
}

/// The counts of the frames of all ports: each is looked at once, and none is executed.
pub(crate) fn count_all_frames<C: Case>(run: &RunData<C>, finished: &Finished<C>) -> FrameCounts
    ensures sent { result.sent ≡ sent_count C.run finished.now }
    ensures dropped { result.dropped ≡ dropped_count C.run finished.now }
{
    let of_ports = finished.boards();
    let mut counts = FrameCounts {
        sent: 0,
        dropped: 0,
    };
    'boards: for board in of_ports {
        let of_port = count_frames(run, board);
        counts.sent += of_port.sent;
        counts.dropped += of_port.dropped;
    }
    counts
}
