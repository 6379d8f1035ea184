//! The rule of the queue, and what its steps do to what passes know. No value of these types is made.
use crate::known::Known;
use crate::upcalls::Upcall;
use crossbeam_queue::protocol::{Join, Lesson, Outcome, Protocol, Split};

/// Each upcall is put once and taken once, in the order of its putter.
pub struct InTurn;

impl Protocol<Upcall, Known> for InTurn {
    ghost use Rattle.upcall_queue.specs.Rule.{IsInTurn, first};

    ghost holds = { IsInTurn };

    ghost first = { first };
}

/// A push. Where it is refused, the pass is told what the queue held.
pub struct Pushed;

impl Outcome<Upcall, Known> for Pushed {
    ghost use Rattle.upcall_queue.specs.Rule.{Puts};

    ghost then = { Puts };
}

impl Lesson<Upcall, Known> for Pushed {
    ghost use Rattle.upcall_queue.specs.Rule.{Shows};

    ghost fact = { Shows };
}

/// A pop. Where there is none, the pass is told that the queue held nothing.
pub struct Popped;

impl Outcome<Upcall, Known> for Popped {
    ghost use Rattle.upcall_queue.specs.Rule.{Takes};

    ghost then = { Takes };
}

impl Lesson<Upcall, Known> for Popped {
    ghost use Rattle.upcall_queue.specs.Rule.{Shows};

    ghost fact = { Shows };
}

/// A look, which changes nothing. The pass is told what the queue held.
pub struct Looked;

impl Lesson<Upcall, Known> for Looked {
    ghost use Rattle.upcall_queue.specs.Rule.{Shows};

    ghost fact = { Shows };
}

/// Another pass is made.
pub struct Made;

impl Split<Known> for Made {
    ghost use Rattle.upcall_queue.specs.Rule.{after_making, made};

    ghost left = { after_making };

    ghost right = { made };
}

/// A pass is taken in by another.
pub struct TakenIn;

impl Join<Known> for TakenIn {
    ghost use Rattle.upcall_queue.specs.Rule.{joined, spent};

    ghost both = { joined };

    ghost spent = { spent };
}
