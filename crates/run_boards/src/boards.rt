//! The boards of a run: one for each port.
ghost use Rattle.std.specs.Prelude.{◌≡◌, All, IfOk, IfSome, MatchBool, MatchOption, map};
ghost use Rattle.spec_board.specs.Schedules as schedules;
ghost use Rattle.run_boards.specs.Boards.{AreBoards, AreIn, AreOfPhase, IsOf};
ghost use Rattle.run_boards.specs.Scheduled.{under_way, IsNew};

use pmd_board::Board;
use run_case::{Case, RunData};
use std::alloc::{AllocError, Global};
use std::marker::Model;

/// The boards of a run: one for each port, in the order of the words, each with the flow limit of the run.
#[derive(Drop)]
pub struct Boards<C: Case> {
    boards: Vec<Board<C>>,
}

impl<C: Case> Model for Boards<C> {
    ghost use Rattle.std.specs.Prelude.{List};
    ghost use Rattle.pmd_board.specs.BoardView.{BoardView};
    ghost use Rattle.run_boards.specs.Boards.{AreBoards};

    ghost Value = { List BoardView };

    ghost view = { λ b. b.boards.items };

    ghost invariant = { λ b. AreBoards C.run C.run.flow_limit b.boards.items };
}

// A new board of each port, in the order of the words.
fn new_boards<C: Case>(
    alloc: Global,
    run: &RunData<C>,
    flow_limit: u32,
) -> Result<Vec<Board<C>>, AllocError>
    ensures ports { IfOk result (λ boards. map (λ b. b.port) boards.items ≡ C.run.ports) }
    ensures new { IfOk result (λ boards. All (IsNew flow_limit) boards.items) }
    ensures scheduled { IfOk result
        (λ boards. map (under_way C.run) boards.items ≡ (schedules.new_schedule C.run).boards) }
{
    let _ = run.ports().len();
    let mut boards = Vec::new(alloc);
    'ports: for port in run.ports().as_slice() {
        let board = Board::new(alloc, run, *port, flow_limit)?;
        boards.push(board)?;
    }
    Ok(boards)
}

// Whether a board is of a port, with this limit.
fn is_of<C: Case>(board: &Board<C>, port: u16, flow_limit: u32) -> bool
    ensures { let is = IsOf flow_limit port board.now in MatchBool result is (is → ⊥) }
{
    board.port() == port && board.flow_limit() == flow_limit
}

// Whether boards are those of the run's ports, in the order of the words, each with this limit.
fn are_boards<C: Case>(run: &RunData<C>, boards: &[Board<C>], flow_limit: u32) -> bool
    ensures { let are = AreBoards C.run flow_limit boards.now in MatchBool result are (are → ⊥) }
{
    let ports = run.ports().as_slice();
    if boards.len() != ports.len() {
        return false;
    }
    'boards: for at in 0..boards.len() {
        if !is_of(&boards[at], ports[at], flow_limit) {
            return false;
        }
    }
    true
}

// Whether boards are all in a block.
fn are_in<C: Case>(boards: &[Board<C>], block: u32) -> bool
    ensures { MatchBool result (AreIn C.run block boards.now) (AreIn C.run block boards.now → ⊥) }
{
    'boards: for at in 0..boards.len() {
        if boards[at].block() != block {
            return false;
        }
    }
    true
}

impl<C: Case> Boards<C> {
    /// New boards, with the flow limit of the run.
    ///
    /// It takes memory for all looks and openings of blocks.
    pub fn new(alloc: Global, run: &RunData<C>, flow_limit: u32) -> Result<Boards<C>, AllocError>
        requires limit { flow_limit ≡ C.run.flow_limit }
        ensures new { IfOk result (All (IsNew flow_limit)) }
        ensures scheduled { IfOk result
            (λ boards. map (under_way C.run) boards ≡ (schedules.new_schedule C.run).boards) }
    {
        let boards = new_boards(alloc, run, flow_limit)?;
        Ok(Boards { boards })
    }

    /// Boards from a list. There are none exactly where it hasn't one for each port, in the order of the words, each with
    /// the flow limit of the run. It takes no memory.
    pub fn of(run: &RunData<C>, boards: Vec<Board<C>>, flow_limit: u32) -> Option<Boards<C>>
        requires limit { flow_limit ≡ C.run.flow_limit }
        ensures { MatchOption result
            (AreBoards C.run flow_limit boards.items → ⊥) (λ found. found ≡ boards.items) }
    {
        if are_boards(run, &boards, flow_limit) {
            return Some(Boards { boards });
        }
        None
    }

    /// Boards from a list. There are none exactly where it hasn't one for each port, in the order of the words, each with
    /// the flow limit of the run and in this block. It takes no memory.
    pub fn of_phase(
        run: &RunData<C>,
        boards: Vec<Board<C>>,
        block: u32,
        flow_limit: u32,
    ) -> Option<Boards<C>>
        requires limit { flow_limit ≡ C.run.flow_limit }
        ensures list { IfSome result (λ found. found ≡ boards.items) }
        ensures fit { MatchOption result (AreOfPhase C.run flow_limit block boards.items → ⊥)
            (λ _. AreOfPhase C.run flow_limit block boards.items) }
    {
        if are_boards(run, &boards, flow_limit) && are_in(&boards, block) {
            return Some(Boards { boards });
        }
        None
    }

    /// Boards from a list that is known to be theirs. It takes no memory.
    pub fn from_vec(boards: Vec<Board<C>>) -> Boards<C>
        requires { AreBoards C.run C.run.flow_limit boards.items }
        ensures { result ≡ boards.items }
    {
        Boards { boards }
    }

    /// The boards, in the order of the words.
    pub fn as_slice(&self) -> &[Board<C>]
        ensures list { result.now ≡ self.now }
        ensures are { AreBoards C.run C.run.flow_limit self.now }
    {
        self.boards.as_slice()
    }

    /// The list of the boards. It takes no memory.
    pub fn into_vec(self) -> Vec<Board<C>>
        ensures list { result.items ≡ self }
        ensures are { AreBoards C.run C.run.flow_limit self }
    {
        self.boards
    }
}
