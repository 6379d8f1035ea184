ghost use Rattle.std.specs.Prelude.{◌≡◌};

use crate::pass::Pass;
use crate::queue::UpcallQueue;
use crate::upcalls::{Upcall, Upcalls};
use run_case::Case;
use std::marker::Model;
use std::sync::Wait;

/// Gives upcalls by pushes to a queue. Contracts see its pass.
pub struct Feeder<'q, C: Case, R: Wait> {
    rt: &'q R,
    queue: &'q UpcallQueue<C>,
    pass: Pass<C>,
}

impl<'q, C: Case, R: Wait> Model for Feeder<'q, C, R> {
    ghost use Rattle.std.specs.Prelude.{◌≡◌};
    ghost use Rattle.upcall_queue.specs.Views.{PassView};

    ghost Value = { PassView };

    ghost view = { λ f. f.pass };

    ghost invariant = { λ f. f.pass.queue ≡ f.queue.now.name };
}

impl<'q, C: Case, R: Wait> Feeder<'q, C, R> {
    /// A feeder that pushes by this pass.
    ///
    /// It takes no memory.
    pub fn new(rt: &'q R, queue: &'q UpcallQueue<C>, pass: Pass<C>) -> Feeder<'q, C, R>
        requires { pass.queue ≡ queue.now.name }
        ensures { result ≡ pass }
    {
        Feeder { rt, queue, pass }
    }

    /// The pass, by which all that was given was put.
    ///
    /// It takes no memory.
    pub fn into_pass(self) -> Pass<C>
        ensures { result ≡ self.entry }
    {
        let Feeder {
            rt: _,
            queue: _,
            pass,
        } = self;
        pass
    }
}

impl<'q, C: Case, R: Wait> Upcalls<C> for Feeder<'q, C, R> {
    ghost use Rattle.std.specs.Prelude.{[]};

    /// The pass without what it put and its refusals.
    type Rest = Pass<C>;

    ghost rest = { λ f. record f { puts = []; refused = 0 } };

    ghost given = { λ f. f.puts };

    ghost refusals = { λ f. f.refused };

    fn give(&mut self, port: u16, place: u32) -> bool {
        self.queue
            .push(self.rt, &mut self.pass, Upcall { port, place })
            .is_ok()
    }

    fn room(&mut self) -> usize {
        self.queue.room(self.rt, &mut self.pass)
    }
}
