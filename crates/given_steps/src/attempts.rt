//! A step of a board, taken if nothing refuses it.
ghost use Rattle.std.specs.Prelude.{◌≡◌, IfOk, true};
ghost use Rattle.ovs_fields.specs.Packed.{numbers};
ghost use Rattle.spec_board.specs.Results.{entry_of};
ghost use Rattle.spec_board.specs.Effects.{is_among, key_of_entry};
ghost use Rattle.pmd_board.specs.BoardView.{state_of};
ghost use Rattle.given_steps.specs.Attempts.{TookOpen, TookLook, TookSettle, TookBegin, TookPut, TookEnd};
ghost use Rattle.given_steps.specs.Taken.{GoesOn};

use pmd_board::{BeginFault, Board, SettleFault, Xlated};
use run_case::{Case, Keyed};
use std::alloc::AllocError;

pub fn open_block<C: Case>(board: &mut Board<C>, block: u32) -> bool
    ensures took { TookOpen C.run block board.old result board.new }
    ensures goes_on { GoesOn C.run board.old board.new }
{
    let _ = board.journal();
    board.open_block(block).is_ok()
}

pub fn look<C: Case>(board: &mut Board<C>, at: &Keyed<C>) -> bool
    requires port { at.now.port ≡ board.old.port }
    requires turn { at.now.place ≡ (state_of C.run board.old).next }
    ensures took { TookLook C.run at.now.place board.old result board.new }
    ensures goes_on { GoesOn C.run board.old board.new }
{
    let _ = board.journal();
    board.look(at).is_ok()
}

pub fn settle<C: Case>(
    board: &mut Board<C>,
    at: &Keyed<C>,
    made: Xlated<C>,
) -> Result<bool, AllocError>
    requires limit { board.old.flow_limit ≡ C.run.flow_limit }
    requires port { at.now.port ≡ board.old.port }
    requires key { made.key ≡ numbers at.now.key }
    ensures took { IfOk result
        (λ took. TookSettle C.run made.version at.now.place board.old took board.new) }
    ensures goes_on { GoesOn C.run board.old board.new }
{
    let _ = board.journal();
    match board.settle(at, made) {
        Ok(()) => Ok(true),
        Err(SettleFault::OutOfMemory) => Err(AllocError),
        Err(_) => Ok(false),
    }
}

pub fn begin<C: Case>(board: &mut Board<C>, version: u32) -> Result<bool, AllocError>
    ensures took { IfOk result (λ took. TookBegin C.run version board.old took board.new) }
    ensures goes_on { GoesOn C.run board.old board.new }
{
    let _ = board.journal();
    match board.begin(version) {
        Ok(()) => Ok(true),
        Err(BeginFault::OutOfMemory) => Err(AllocError),
        Err(_) => Ok(false),
    }
}

pub fn put<C: Case>(board: &mut Board<C>, number: u32, made: Xlated<C>) -> bool
    requires { is_among (state_of C.run board.old).listed number ≡ true
        → made.key ≡ key_of_entry (entry_of number (state_of C.run board.old).entries) }
    ensures took { TookPut C.run made.version number board.old result board.new }
    ensures goes_on { GoesOn C.run board.old board.new }
{
    let _ = board.journal();
    board.put(number, made).is_ok()
}

pub fn end<C: Case>(board: &mut Board<C>) -> bool
    ensures took { TookEnd C.run board.old result board.new }
    ensures goes_on { GoesOn C.run board.old board.new }
{
    let _ = board.journal();
    board.end().is_ok()
}
