ghost use Rattle.std.specs.Prelude.{◌≡◌, ◌<◌, ◌≤◌, ◌+◌, ◌-◌, ℕ, [], ◌∷◌, ◌++◌, drop, All, IfOk, IfErr, IfSome, OnOk, OnErr, IfNone, vec_len, slice_get};
ghost use Rattle.crossbeam_queue.specs.Fifo.{Held};
ghost use Rattle.upcall_queue.specs.Views.{IsNewPass, AreNumbered, HasAll, IsInOrder, Accounts, AreAllTaken, one_more, took, past_of};

use crate::known::Known;
use crate::pass::Pass;
use crate::rule::{InTurn, Looked, Made, Popped, Pushed, TakenIn};
use crate::upcalls::Upcall;
use crossbeam_queue::RuledArrayQueue;
use run_case::Case;
use std::alloc::{AllocError, Global};
use std::marker::{Model, PhantomData};
use std::sync::Wait;

/// The upcalls that wait for a handler, the oldest first. Threads share it, each with a pass of its own.
#[derive(Drop)]
pub struct UpcallQueue<C: Case> {
    queue: RuledArrayQueue<Upcall, Known, InTurn>,
    of: PhantomData<C>,
}

impl<C: Case> Model for UpcallQueue<C> {
    ghost use Rattle.crossbeam_queue.specs.Passes.{ruled_capacity};
    ghost use Rattle.upcall_queue.specs.Views.{QueueView};

    ghost Value = { QueueView };

    ghost view = { λ q. record { name = q.queue.table.shared.table_id; capacity = ruled_capacity q.queue } };
}

impl<C: Case> UpcallQueue<C> {
    /// An empty queue with room for so many upcalls, and so many passes to it, numbered from 0. The first one knows how
    /// many there are.
    ///
    /// The only error is out of memory.
    pub fn new(
        alloc: Global,
        capacity: usize,
        passes: usize,
    ) -> Result<(UpcallQueue<C>, Vec<Pass<C>>), AllocError>
        requires capacity { 1 ≤ capacity }
        requires passes { 1 ≤ passes }
        ensures capacity { IfOk result (λ q. q.0.capacity ≡ capacity) }
        ensures passes { IfOk result (λ q. All (IsNewPass q.0) q.1.items) }
        ensures count { IfOk result (λ q. vec_len q.1 ≡ passes) }
        ensures numbers { IfOk result (λ q. AreNumbered 0 q.1.items) }
        ensures first { IfOk result (λ q. IfSome (slice_get q.1.items 0) (λ first. first.passes ≡ passes)) }
        ensures others { IfOk result (λ q. All (λ other. other.passes ≡ 0) (drop 1 q.1.items)) }
    {
        let (queue, first) = RuledArrayQueue::ruled(alloc, capacity)?;
        let queue = UpcallQueue {
            queue,
            of: PhantomData,
        };
        let passes = queue.passes_from(alloc, Pass::of(first), passes)?;
        Ok((queue, passes))
    }

    // The first pass, which is the only one, and so many in all.
    fn passes_from(
        &self,
        alloc: Global,
        first: Pass<C>,
        count: usize,
    ) -> Result<Vec<Pass<C>>, AllocError>
        requires count { 1 ≤ count }
        requires first { IsNewPass self.now first }
        requires number { first.number ≡ 0 }
        requires alone { first.passes ≡ 1 }
        ensures passes { IfOk result (λ v. All (IsNewPass self.now) v.items) }
        ensures count { IfOk result (λ v. vec_len v ≡ count) }
        ensures numbers { IfOk result (λ v. AreNumbered 0 v.items) }
        ensures first { IfOk result (λ v. IfSome (slice_get v.items 0) (λ first. first.passes ≡ count)) }
        ensures others { IfOk result (λ v. All (λ other. other.passes ≡ 0) (drop 1 v.items)) }
    {
        let mut first = first;
        let mut passes = Vec::with_capacity(alloc, count)?;
        'passes: for _ in 1..count {
            passes.push(self.another(&mut first))?;
        }
        passes.insert(0, first)?;
        Ok(passes)
    }

    // Another pass, of which the first one knows.
    fn another(&self, first: &mut Pass<C>) -> Pass<C>
        requires queue { first.old.queue ≡ self.now.name }
        requires first { 0 < first.old.passes }
        ensures first { first.new ≡ record first.old { passes = first.old.passes + 1 } }
        ensures another { IsNewPass self.now result }
        ensures number { result.number ≡ first.old.passes }
        ensures other { result.passes ≡ 0 }
    {
        Pass::of(self.queue.another::<Made>(&mut first.pass))
    }

    /// Puts an upcall at the back. It comes back only where the queue was full at one moment of the call, and then the
    /// pass counts a refusal.
    ///
    /// It takes no memory.
    pub fn push<R: Wait>(&self, rt: &R, pass: &mut Pass<C>, upcall: Upcall) -> Result<(), Upcall>
        requires { pass.old.queue ≡ self.now.name }
        ensures queue { pass.new.queue ≡ pass.old.queue }
        ensures put { OnOk result (pass.new ≡ record pass.old { puts = pass.old.puts ++ upcall ∷ [] }) }
        ensures refused { OnErr result (pass.new ≡ record pass.old { refused = one_more pass.old.refused }) }
        ensures count { pass.old.refused ≤ pass.new.refused }
        ensures back { IfErr result (λ u. u ≡ upcall) }
        ensures full { OnErr result (Held self.now.capacity (Accounts pass.old)) }
    {
        let answer = self.queue.push_as::<Pushed, R>(rt, &mut pass.pass, upcall);
        if answer.is_err() {
            pass.refused = pass.refused.saturating_add(1);
        }
        answer
    }

    /// Takes the upcall at the front. There is none only where the queue was empty at one moment of the call.
    ///
    /// It takes no memory.
    pub fn pop<R: Wait>(&self, rt: &R, pass: &mut Pass<C>) -> Option<Upcall>
        requires { pass.old.queue ≡ self.now.name }
        ensures queue { pass.new.queue ≡ pass.old.queue }
        ensures taken { IfSome result (λ u. (putter : ℕ) × (place : ℕ) × (pass.new ≡ record pass.old { took = pass.old.took ++ took putter place u ∷ [] })) }
        ensures order { IsInOrder pass.new }
        ensures none { IfNone result (pass.new ≡ pass.old) }
        ensures empty { IfNone result (Held 0 (Accounts pass.old)) }
        ensures all { IfNone result (HasAll pass.old → AreAllTaken pass.old) }
    {
        self.queue.pop_as::<Popped, R>(rt, &mut pass.pass)
    }

    /// For how many upcalls there was room at one moment of the call. Others may have put and taken since.
    ///
    /// It takes no memory.
    pub fn room<R: Wait>(&self, rt: &R, pass: &mut Pass<C>) -> usize
        requires { pass.old.queue ≡ self.now.name }
        ensures pass { pass.new ≡ pass.old }
        ensures room { result ≤ self.now.capacity }
        ensures queued { Held (self.now.capacity - result) (Accounts pass.old) }
    {
        let queued = self.queue.len_as::<Looked, R>(rt, &mut pass.pass);
        self.queue.capacity() - queued
    }

    /// Ends the other pass, whose lists this one takes in.
    ///
    /// It takes no memory.
    pub fn take_in(&self, into: &mut Pass<C>, other: Pass<C>)
        requires into { into.old.queue ≡ self.now.name }
        requires other { other.queue ≡ self.now.name }
        ensures queue { into.new.queue ≡ into.old.queue }
        ensures taken { into.new ≡ record into.old { passes = into.old.passes + other.passes; others = into.old.others ++ past_of other ∷ other.others } }
        ensures order { IsInOrder into.new }
    {
        self.queue.absorb::<TakenIn>(&mut into.pass, other.pass);
        self.queue.learn_as::<Looked>(&mut into.pass);
    }
}
