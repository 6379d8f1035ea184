ghost use Rattle.std.specs.Prelude.{ℕ, ◌≡◌, ◌<◌, ◌≤◌, ◌+◌, ◌^◌, [], nat_lt, length, IfOk, IfSome, IfNone, IsSome, Some, None, true, false};
ghost use Rattle.std.specs.List.{find};
ghost use Rattle.std.specs.Option.{option_map};
ghost use Rattle.ovs_fields.specs.Packed.{numbers};
ghost use Rattle.spec_case.specs.Run.{edit_count, last_version};
ghost use Rattle.spec_case.specs.Blocks.{AreInOrder, hi, last_place};
ghost use Rattle.spec_board.specs.State as states;
ghost use Rattle.spec_board.specs.Results.{entry_of};
ghost use Rattle.spec_board.specs.Journals.{IsLegal};
ghost use Rattle.run_case.specs.Places.{HasPort};
ghost use Rattle.board_laws.specs.Entries.{HasKeys};
ghost use Rattle.pmd_board.specs.BoardView.{AreEntries, IsDecision, IsLawful, IsNextCheck, last_settled, state_of};
ghost use Rattle.port_caches.specs.Sums.{total_of};
ghost use Rattle.pmd_board.specs.Fields.{AreBounds, steps_left as left, steps_left_in};
ghost use Rattle.board_steps.specs.StepViews.{settled_view, steps_view};

use crate::place::{BlockBounds, Place};
use crate::sweep_list::SweepList;
use board_steps::{Settled, Step};
use dp_actions::DpAction;
use ovs_fields::Key;
use port_caches::{Megaflows, PortCaches, Totals};
use run_case::{Case, RunData};
use std::alloc::{AllocError, Global};
use std::marker::{Model, PhantomData};

/// The board of one ingress port.
///
/// Its type keeps that its journal is legal, and that its fields are those of the state that the journal leads to.
#[derive(Drop)]
pub struct Board<C: Case> {
    pub(crate) alloc: Global,
    pub(crate) port: u16,
    pub(crate) blocks: Vec<BlockBounds>,
    pub(crate) block: u32,
    pub(crate) newest: u32,
    pub(crate) floor: u32,
    pub(crate) done: u32,
    pub(crate) sweeping: bool,
    /// The entries that the sweep has yet to put.
    pub(crate) listed: SweepList,
    pub(crate) next: u32,
    /// The newest time of a frame that was looked up.
    pub(crate) clock: u64,
    pub(crate) pending: u32,
    pub(crate) places: Vec<Place>,
    pub(crate) caches: PortCaches,
    pub(crate) journal: Vec<Step>,
    pub(crate) of: PhantomData<C>,
}

impl<C: Case> Model for Board<C> {
    ghost use Rattle.pmd_board.specs.BoardView.{BoardView};

    ghost Value = { BoardView };

    ghost use Rattle.port_caches.specs.Sums.{total_of};
    ghost use Rattle.pmd_board.specs.Fields.{view_of, IsKept};

    ghost view = { view_of };

    ghost invariant = { IsKept C.run };
}

// For how many steps a board needs room at any time: a look of each frame that is left, an opening of each block that
// is left, and where a sweep runs the puts of what it has yet to put and its end.
fn steps_left(
    frames: usize,
    next: u32,
    last: usize,
    block: u32,
    sweeping: bool,
    listed: usize,
) -> usize
    requires next { next ≤ frames + 1 }
    requires block { block ≤ last }
    requires few { (frames + 1 < 2 ^ 32) × ((last < 2 ^ 32) × (listed < 2 ^ 32)) }
    ensures left { result ≡ left frames next last block sweeping listed }
    ensures few { result < 2 ^ 35 }
{
    let looks = frames + 1 - next as usize;
    let opens = last - block as usize;
    let puts = if sweeping { listed + 1 } else { 0 };
    looks + opens + puts
}

// The bounds of the blocks of a port.
fn bounds_of<C: Case>(
    alloc: Global,
    run: &RunData<C>,
    port: u16,
) -> Result<Vec<BlockBounds>, AllocError>
    requires { HasPort C.run.ports port }
    ensures { IfOk result (λ v. AreBounds C.run port v.items) }
{
    let mut bounds = Vec::new(alloc);
    'bounds: for block in 0..run.blocks() {
        bounds.push(BlockBounds {
            hi: run.hi(block),
            last_place: run.last_place(port, block),
        })?;
    }
    Ok(bounds)
}

impl<C: Case> Board<C> {
    /// A new board of a port, with at most so many megaflows. It takes memory for all looks and openings of blocks.
    pub fn new(
        alloc: Global,
        run: &RunData<C>,
        port: u16,
        flow_limit: u32,
    ) -> Result<Board<C>, AllocError>
        requires { HasPort C.run.ports port }
        ensures { IfOk result
            (λ b. b ≡ record { port = port; flow_limit = flow_limit; journal = [] }) }
    {
        let frames = run.frames(port) as usize;
        let blocks = bounds_of(alloc, run, port)?;
        let mut journal = Vec::new(alloc);
        journal.reserve(2 * frames + 3 * blocks.len())?;
        Ok(Board {
            alloc,
            port,
            blocks,
            block: 0,
            newest: 0,
            floor: 0,
            done: 0,
            sweeping: false,
            listed: SweepList::new(alloc),
            next: 1,
            clock: 0,
            pending: 0,
            places: vec![in alloc; Place::Waiting; frames]?,
            caches: PortCaches::new(alloc, flow_limit, run.edit_count())?,
            journal,
            of: PhantomData,
        })
    }

    /// The port whose frames it decides.
    pub fn port(&self) -> u16
        ensures same { result ≡ self.now.port }
        ensures there { HasPort C.run.ports result }
    {
        self.port
    }

    /// The most megaflows that it may have.
    pub fn flow_limit(&self) -> u32
        ensures { result ≡ self.now.flow_limit }
    {
        self.caches.limit()
    }

    /// The block that it is in, from 0.
    pub fn block(&self) -> u32
        ensures same { result ≡ (state_of C.run self.now).block }
        ensures lawful { IsLawful C.run self.now }
    {
        self.block
    }

    /// The version at which the last sweep began.
    pub fn floor(&self) -> u32
        ensures same { result ≡ (state_of C.run self.now).floor }
        ensures lawful { IsLawful C.run self.now }
    {
        self.floor
    }

    /// The version at which the last sweep began that was ended.
    pub fn done(&self) -> u32
        ensures same { result ≡ (state_of C.run self.now).done }
        ensures lawful { IsLawful C.run self.now }
    {
        self.done
    }

    /// The place of the frame that is to be looked up next, from 1; one beyond the trace where all were.
    pub fn next(&self) -> u32
        ensures same { result ≡ (state_of C.run self.now).next }
        ensures lawful { IsLawful C.run self.now }
    {
        self.next
    }

    /// Whether a sweep runs.
    pub fn is_sweeping(&self) -> bool
        ensures { result ≡ (state_of C.run self.now).is_sweeping }
    {
        self.sweeping
    }

    /// Whether the frame of a place waits for its upcall.
    pub fn is_pending(&self, place: u32) -> bool
        ensures { result ≡ states.is_pending (states.place_at place (state_of C.run self.now)) }
    {
        if place == 0 || place as usize > self.places.len() {
            return false;
        }
        match self.places[place as usize - 1] {
            Place::Pending => true,
            _ => false,
        }
    }

    /// The steps that it took, in order.
    pub fn journal(&self) -> &[Step]
        ensures same { steps_view result.now ≡ self.now.journal }
        ensures legal { IsLegal C.run self.now.port self.now.flow_limit self.now.journal }
        ensures keys { HasKeys C.run self.now.port (state_of C.run self.now).next }
        ensures in_order { AreInOrder C.run.syncs (last_version C.run) }
        ensures lawful { IsLawful C.run self.now }
    {
        self.journal.as_slice()
    }

    /// What the last step did, if it is a settle, beside deciding a frame.
    pub fn last_settled(&self) -> Option<&Settled>
        ensures { option_map (λ r. settled_view r.now) result ≡ last_settled self.now.journal }
    {
        match self.journal.last()? {
            Step::Settle { result, .. } => Some(result),
            _ => None,
        }
    }

    // What is kept of the decision of a place's frame.
    fn kept(&self, place: u32) -> Option<(u32, &[DpAction])>
        ensures some { IfSome result
            (λ d. states.place_at place (state_of C.run self.now) ≡ states.Decided d.0 d.1.now) }
        ensures none { IfNone result
            (states.is_decided (states.place_at place (state_of C.run self.now)) ≡ false) }
    {
        if place == 0 || place as usize > self.places.len() {
            return None;
        }
        match self.places[place as usize - 1] {
            Place::Decided { version, list } => Some((version, self.caches.actions(list))),
            _ => None,
        }
    }

    /// The version and the actions by which the frame of a place was decided; `None` exactly where it isn't decided.
    ///
    /// One step of the journal decided it, as a plain scan of that version does, within the window of its block.
    pub fn decision(&self, place: u32) -> Option<(u32, &[DpAction])>
        ensures told { IfSome result (λ d. IsDecision C.run self.now place d.0 d.1.now) }
        ensures some { IfSome result
            (λ d. states.place_at place (state_of C.run self.now) ≡ states.Decided d.0 d.1.now) }
        ensures none { IfNone result
            (states.is_decided (states.place_at place (state_of C.run self.now)) ≡ false) }
        ensures lawful { IsLawful C.run self.now }
    {
        let _ = &self.journal;
        match self.kept(place) {
            Some((version, actions)) => Some((version, actions)),
            None => None,
        }
    }

    /// The megaflows. Their actions are those of `actions`.
    pub fn entries(&self) -> &Megaflows
        ensures entries { AreEntries result.now.entries (state_of C.run self.now).entries }
        ensures lawful { IsLawful C.run self.now }
    {
        self.caches.entries()
    }

    /// The actions of a live megaflow.
    pub fn actions(&self, number: u32) -> &[DpAction]
        requires { IsSome (entry_of number (state_of C.run self.now).entries) }
        ensures { option_map (λ e. e.actions) (entry_of number (state_of C.run self.now).entries)
            ≡ Some result.now }
    {
        self.caches.entry_actions(number)
    }

    /// What each rule was credited with. What entries owe it comes on top.
    pub fn totals(&self) -> &Totals
        ensures rules { length result.now ≡ edit_count C.run }
        ensures totals { (rule : ℕ)
            → total_of result.now rule ≡ (state_of C.run self.now).totals rule }
        ensures lawful { IsLawful C.run self.now }
    {
        self.caches.totals()
    }

    /// The least entry above a number that the sweep has yet to put, and its key; `None` exactly where there is none.
    pub fn next_check(&self, after: u32) -> Option<(u32, Key)>
        ensures some { IfSome result
            (λ r. IsNextCheck (state_of C.run self.now) after r.0 (numbers r.1)) }
        ensures none { IfNone result
            (find (λ n. nat_lt after n) (state_of C.run self.now).listed ≡ None) }
    {
        let number = self.listed.above(after)?;
        match self.caches.key_of(number) {
            Some(key) => Some((number, *key)),
            None => unreachable!(),
        }
    }

    // The laws hold of every board.
    pub(crate) fn laws_hold(&self)
        ensures { IsLawful C.run self.now }
    {
        let _ = &self.journal;
    }

    // For how many steps there has to be room.
    pub(crate) fn room_needed(&self) -> usize
        ensures left { result ≡ steps_left_in C.run self.now.port (state_of C.run self.now) }
        ensures few { result < 2 ^ 35 }
    {
        steps_left(
            self.places.len(),
            self.next,
            self.blocks.len() - 1,
            self.block,
            self.sweeping,
            self.listed.len(),
        )
    }
}
