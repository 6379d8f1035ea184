ghost use Rattle.std.specs.Prelude.{◌≡◌, []};
ghost use Rattle.run_case.specs.Places.{HasPort};
ghost use Rattle.pmd_board.specs.BoardView.{IsLawful, state_of};

use crate::kept::KeptXlates;
use pmd_board::Board;
use run_case::Case;
use std::alloc::Global;
use std::collections::HashMap;
use std::marker::Model;

/// A board that takes given steps, and the translations that are kept for its places and entries.
#[derive(Drop)]
pub struct ScheduledBoard<C: Case> {
    pub(crate) board: Board<C>,
    pub(crate) snaps: KeptXlates<C>,
    pub(crate) checks: KeptXlates<C>,
}

impl<C: Case> Model for ScheduledBoard<C> {
    ghost use Rattle.given_steps.specs.ScheduledViews.{ScheduledView};

    ghost Value = { ScheduledView };

    ghost use Rattle.given_steps.specs.Fields.{view_of, IsKept};

    ghost view = { view_of };

    ghost invariant = { IsKept C.run };
}

impl<C: Case> ScheduledBoard<C> {
    /// A board for which no translation is kept. It takes no memory.
    pub fn new(alloc: Global, board: Board<C>) -> ScheduledBoard<C>
        requires limit { board.flow_limit ≡ C.run.flow_limit }
        ensures { result ≡ record { board = board; snaps = []; checks = [] } }
    {
        ScheduledBoard {
            board,
            snaps: HashMap::new(alloc),
            checks: HashMap::new(alloc),
        }
    }

    /// The board. Translations that are kept for it are given up.
    pub fn into_board(self) -> Board<C>
        ensures same { result ≡ self.board }
        ensures limit { result.flow_limit ≡ C.run.flow_limit }
    {
        self.board
    }

    /// The port whose frames it decides.
    pub fn port(&self) -> u16
        ensures same { result ≡ self.now.board.port }
        ensures there { HasPort C.run.ports result }
    {
        self.board.port()
    }

    /// The block that it is in, from 0.
    pub fn block(&self) -> u32
        ensures same { result ≡ (state_of C.run self.now.board).block }
        ensures lawful { IsLawful C.run self.now.board }
    {
        self.board.block()
    }
}
