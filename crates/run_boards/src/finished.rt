//! Boards at which nothing is left to be done.
ghost use Rattle.std.specs.Prelude.{◌≡◌, ◌≤◌, All, IfOk, length};
ghost use Rattle.spec_case.specs.Arrivals.{in_order, arrivals as came_in};
ghost use Rattle.spec_xlate.specs.Translation.{action_limit};
ghost use Rattle.spec_board.specs.Journals.{IsFinished};
ghost use Rattle.spec_run.specs.Journals.{AreWhole, actions_for, steps_of};
ghost use Rattle.run_case.specs.Places.{HasPort};
ghost use Rattle.run_boards.specs.Arrivals.{IsArrival};
ghost use Rattle.pmd_board.specs.BoardView.{journals_view, state_of};
ghost use Rattle.run_boards.specs.Finished.{AreFinished, IsDecidedFrame};
ghost use Rattle.run_boards.specs.Scheduled.{IsKnown};

use crate::arrivals::arrivals_of;
use crate::boards::Boards;
use crate::decided_frame::DecidedFrame;
use pmd_board::Board;
use run_case::{Case, RunData};
use spec_actions::DpAction;
use spec_case::Arrival;
use std::alloc::{AllocError, Global};
use std::marker::Model;

/// The boards of a run at which nothing is left to be done, and the arrivals of the frames that they decided.
///
/// Contracts see it as the list of its journals. Its type keeps that they are whole: there is one for each port, in the
/// order of the words, each is legal and complete, and each frame of each port is decided.
#[derive(Drop)]
pub struct Finished<C: Case> {
    boards: Boards<C>,
    came: Vec<Arrival>,
}

impl<C: Case> Model for Finished<C> {
    ghost use Rattle.std.specs.Prelude.{List};
    ghost use Rattle.spec_board.specs.Texts.{Journal};
    ghost use Rattle.pmd_board.specs.BoardView.{journals_view};
    ghost use Rattle.run_boards.specs.Finished.{AreKept};

    ghost Value = { List Journal };

    ghost view = { λ f. journals_view f.boards };

    ghost invariant = { λ f. AreKept C.run f.boards f.came.items };
}

/// What is so of every board, by its type: its journal is legal, and the laws of boards hold.
pub fn recall_laws<C: Case>(boards: &[Board<C>])
    ensures { All (IsKnown C.run) boards.now }
{
    'boards: for board in boards {
        let _ = board.journal();
    }
}

impl<C: Case> Finished<C> {
    /// Boards at which nothing is left to be done. It takes memory for the arrivals of all frames.
    pub fn new(
        alloc: Global,
        run: &RunData<C>,
        boards: Boards<C>,
    ) -> Result<Finished<C>, AllocError>
        requires { AreFinished C.run boards }
        ensures { IfOk result (λ done. done ≡ journals_view boards) }
    {
        recall_laws(boards.as_slice());
        // The ports differ, so that each arrival is a frame of its port's own trace.
        let _ = run.ports().len();
        let came = arrivals_of(alloc, run)?;
        Ok(Finished { boards, came })
    }

    /// The boards, in the order of the words.
    pub fn boards(&self) -> &[Board<C>]
        ensures journals { journals_view result.now ≡ self.now }
        ensures whole { AreWhole C.run self.now }
    {
        let _ = &self.came;
        self.boards.as_slice()
    }

    /// The arrivals of the frames of all ports, in order.
    pub fn arrivals(&self) -> &[Arrival]
        ensures list { result.now ≡ in_order (came_in C.run) }
        ensures each { All (IsArrival C.run) result.now }
    {
        self.came.as_slice()
    }

    // The board of a port.
    fn board_of(&self, run: &RunData<C>, port: u16) -> &Board<C>
        requires { HasPort C.run.ports port }
        ensures port { result.now.port ≡ port }
        ensures journal { steps_of self.now port ≡ result.now.journal }
        ensures finished { IsFinished C.run (state_of C.run result.now) }
    {
        let boards = self.boards.as_slice();
        match run.ports().find(port) {
            Some(place) => &boards[place as usize],
            None => unreachable!(),
        }
    }

    /// The actions by which an arrived frame was decided.
    pub fn actions(&self, run: &RunData<C>, arrival: Arrival) -> &[DpAction]
        requires { IsArrival C.run arrival }
        ensures actions { result.now ≡ actions_for C.run self.now arrival.port arrival.place }
        ensures few { length result.now ≤ action_limit }
    {
        match self.board_of(run, arrival.port).decision(arrival.place) {
            Some((_, actions)) => actions,
            None => unreachable!(),
        }
    }

    /// An arrived frame, with the actions by which it was decided.
    pub fn frame<'a>(&'a self, run: &'a RunData<C>, arrival: Arrival) -> DecidedFrame<'a>
        requires { IsArrival C.run arrival }
        ensures { IsDecidedFrame C.run self.now arrival result }
    {
        DecidedFrame {
            time: run.time(arrival.port, arrival.place),
            bytes: run.frame(arrival.port, arrival.place),
            actions: self.actions(run, arrival),
        }
    }
}
