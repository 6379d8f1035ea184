//! One step of a board, where nothing refuses it.
ghost use Rattle.std.specs.Prelude.{◌≡◌, None, OnOk};
ghost use Rattle.ovs_fields.specs.Packed.{numbers};
ghost use Rattle.spec_board.specs.Steps as steps;
ghost use Rattle.spec_board.specs.Results.{entry_of};
ghost use Rattle.spec_board.specs.Refusals.{open_fault, look_fault, settle_fault, begin_fault, put_fault, end_fault};
ghost use Rattle.spec_board.specs.Effects.{key_of_entry};
ghost use Rattle.pmd_board.specs.BoardView.{Appends, HasSettled, state_of};
ghost use Rattle.run_boards.specs.Progress.{HasPut};

use pipe_model::SpareLists;
use pmd_board::{BeginFault, Board, Looked, SettleFault, Xlated};
use run_case::{Case, Keyed};
use std::alloc::AllocError;

pub fn open_block<C: Case>(board: &mut Board<C>, block: u32)
    requires { open_fault C.run board.old.port (state_of C.run board.old) block ≡ None }
    ensures { Appends C.run board.old (steps.Open block) board.new }
{
    match board.open_block(block) {
        Ok(()) => {}
        Err(_) => unreachable!(),
    }
}

pub fn look<C: Case>(board: &mut Board<C>, at: &Keyed<C>) -> Looked
    requires port { at.now.port ≡ board.old.port }
    requires may { look_fault C.run board.old.port (state_of C.run board.old) at.now.place ≡ None }
    ensures { Appends C.run board.old (steps.Look at.now.place result) board.new }
{
    match board.look(at) {
        Ok(found) => found,
        Err(_) => unreachable!(),
    }
}

pub fn settle<C: Case>(
    board: &mut Board<C>,
    at: &Keyed<C>,
    made: Xlated<C>,
) -> Result<(), AllocError>
    requires port { at.now.port ≡ board.old.port }
    requires key { made.key ≡ numbers at.now.key }
    requires may { settle_fault C.run (state_of C.run board.old) at.now.place made.version ≡ None }
    ensures { OnOk result (HasSettled C.run board.old at.now.place made.version board.new) }
{
    match board.settle(at, made) {
        Ok(_) => Ok(()),
        Err(SettleFault::OutOfMemory) => Err(AllocError),
        Err(_) => unreachable!(),
    }
}

pub fn begin<C: Case>(board: &mut Board<C>, version: u32) -> Result<(), AllocError>
    requires { begin_fault C.run (state_of C.run board.old) version ≡ None }
    ensures { OnOk result (Appends C.run board.old (steps.Begin version) board.new) }
{
    match board.begin(version) {
        Ok(()) => Ok(()),
        Err(BeginFault::OutOfMemory) => Err(AllocError),
        Err(_) => unreachable!(),
    }
}

// Answers lists that aren't needed any more.
pub fn put<C: Case>(board: &mut Board<C>, number: u32, made: Xlated<C>) -> SpareLists
    requires key { made.key ≡ key_of_entry (entry_of number (state_of C.run board.old).entries) }
    requires may { put_fault C.run (state_of C.run board.old) number made.version ≡ None }
    ensures { HasPut C.run board.old number made.version board.new }
{
    match board.put(number, made) {
        Ok(revalidated) => revalidated.lists,
        Err(_) => unreachable!(),
    }
}

pub fn end<C: Case>(board: &mut Board<C>)
    requires { end_fault (state_of C.run board.old) ≡ None }
    ensures { Appends C.run board.old steps.End board.new }
{
    match board.end() {
        Ok(()) => {}
        Err(_) => unreachable!(),
    }
}
