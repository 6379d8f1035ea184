//! The settle of a frame on a board that was lent.
ghost use Rattle.std.specs.Prelude.{◌≡◌, IfOk, OnErr};
ghost use Rattle.ovs_fields.specs.Packed.{numbers};
ghost use Rattle.upcall_handler.specs.Settles.{Settles, Tells};

use crate::upshot::Settling;
use pmd_board::{Board, SettleFault, Xlated};
use run_case::{Case, Keyed};
use std::alloc::AllocError;

/// Settles a frame on a board that was lent, by a translation of its key. It answers what the board did.
///
/// The only error is out of memory, and then the board is as it was.
pub fn settle_lent<C: Case>(
    board: &mut Board<C>,
    at: &Keyed<C>,
    made: Xlated<C>,
) -> Result<Settling, AllocError>
    requires { made.key ≡ numbers at.now.key }
    ensures settles { IfOk result
        (λ r. Settles C.run board.old at.now.port at.now.place made.version r board.new) }
    ensures tells { IfOk result (λ r. Tells C.run made.version r) }
    ensures unchanged { OnErr result (board.new ≡ board.old) }
{
    if board.port() != at.port {
        return Ok(Settling::Gone);
    }
    match board.settle(at, made) {
        Ok(()) => Ok(Settling::Done),
        Err(SettleFault::NotPending) => Ok(Settling::Gone),
        Err(SettleFault::Stale { floor }) => Ok(Settling::Stale { floor }),
        Err(SettleFault::Ahead { hi }) => Ok(Settling::Ahead { hi }),
        Err(SettleFault::OutOfMemory) => Err(AllocError),
    }
}
