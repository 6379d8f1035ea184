//! What refuses a step of a board, and what that is decided by.
ghost use Rattle.std.specs.Prelude.{◌≡◌, ◌<◌, ◌+◌, Some, None};
ghost use Rattle.spec_case.specs.Blocks.{hi, last_block, last_place};
ghost use Rattle.spec_board.specs.State as states;
ghost use Rattle.spec_board.specs.Refusals.{is_next_block, open_fault, look_fault, settle_fault, begin_fault, put_fault};
ghost use Rattle.pmd_board.specs.BoardView.{state_of};

use crate::board::Board;
use run_case::{Case, Keyed};
use spec_board::{BeginFault, LookFault, OpenFault, PutFault, SettleFault};

impl<C: Case> Board<C> {
    pub(crate) fn is_next(&self, block: u32) -> bool
        ensures { result ≡ is_next_block C.run (state_of C.run self.now) block }
    {
        (block == self.block + 1) & ((block as usize) < self.blocks.len())
    }

    // The last place of its block.
    pub(crate) fn last_place(&self) -> u32
        ensures { result ≡ last_place C.run self.now.port (state_of C.run self.now).block }
    {
        self.blocks[self.block as usize].last_place
    }

    // The newest version that its block allows.
    pub(crate) fn hi(&self) -> u32
        ensures { result ≡ hi C.run (state_of C.run self.now).block }
    {
        self.blocks[self.block as usize].hi
    }

    pub(crate) fn last_block(&self) -> u32
        ensures { result ≡ last_block C.run }
    {
        (self.blocks.len() - 1) as u32
    }

    pub(crate) fn pending(&self) -> u32
        ensures { result ≡ states.pending_count (state_of C.run self.now) }
    {
        self.pending
    }

    pub(crate) fn open_refusal(&self, block: u32) -> Option<OpenFault>
        ensures { result ≡ open_fault C.run self.now.port (state_of C.run self.now) block }
    {
        if !self.is_next(block) {
            return Some(OpenFault::Order {
                block: self.block(),
                last: self.last_block(),
            });
        }
        if self.next() <= self.last_place() {
            return Some(OpenFault::LooksLeft { next: self.next() });
        }
        let pending = self.pending();
        if pending != 0 {
            return Some(OpenFault::Pending(pending));
        }
        let lo = self.hi();
        if self.done() < lo {
            return Some(OpenFault::Unswept {
                done: self.done(),
                lo,
            });
        }
        None
    }

    pub(crate) fn look_refusal(&self, at: &Keyed<C>) -> Option<LookFault>
        ensures { at.now.port ≡ self.now.port
            → result ≡ look_fault C.run self.now.port (state_of C.run self.now) at.now.place }
    {
        if at.place != self.next {
            return Some(LookFault::OutOfTurn { next: self.next });
        }
        if at.block != self.block {
            return Some(LookFault::OtherBlock { block: self.block });
        }
        None
    }

    pub(crate) fn settle_refusal(&self, place: u32, version: u32) -> Option<SettleFault>
        ensures { result ≡ settle_fault C.run (state_of C.run self.now) place version }
    {
        if !self.is_pending(place) {
            return Some(SettleFault::NotPending);
        }
        if version < self.floor {
            return Some(SettleFault::Stale { floor: self.floor });
        }
        let hi = self.hi();
        if hi < version {
            return Some(SettleFault::Ahead { hi });
        }
        None
    }

    pub(crate) fn put_refusal(&self, number: u32, version: u32) -> Option<PutFault>
        ensures { result ≡ put_fault C.run (state_of C.run self.now) number version }
    {
        if !self.listed.has(number) {
            return Some(PutFault::NotListed);
        }
        if version < self.floor {
            return Some(PutFault::Stale { floor: self.floor });
        }
        let hi = self.hi();
        if hi < version {
            return Some(PutFault::Ahead { hi });
        }
        None
    }

    pub(crate) fn begin_refusal(&self, version: u32) -> Option<BeginFault>
        ensures { result ≡ begin_fault C.run (state_of C.run self.now) version }
    {
        if self.sweeping {
            return Some(BeginFault::Sweeping { floor: self.floor });
        }
        let hi = self.hi();
        if hi < version {
            return Some(BeginFault::Ahead { hi });
        }
        None
    }
}
