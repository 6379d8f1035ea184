//! What several threads give to one queue, each by a feeder of its pass.
ghost use Rattle.std.specs.Prelude.{◌≡◌, All, IfOk};

use run_case::Case;
use std::alloc::{AllocError, Global};
use std::marker::Brand;
use std::process::Abort;
use std::sync::Wait;
use std::test::*;
use std::thread;
use std::thread::Threads;
use upcall_queue::{Feeder, Pass, UpcallQueue, Upcalls};

const GIVERS: usize = 2;

const EACH: u32 = 100;

#[test]
fn what_threads_give_is_taken_once(rt: HostRuntime) -> Result<(), Fail> {
    by_threads::<Brand, _>(&rt, rt.alloc())
}

fn by_threads<C: Case + Send + Sync, R: Threads + Wait + Abort + Sync>(
    rt: &R,
    alloc: Global,
) -> Result<(), Fail> {
    let (queue, passes) = UpcallQueue::<C>::new(alloc, 1_000, GIVERS)?;
    let done = given_and_taken(rt, &queue, passes);
    drop(queue);
    Ok(done?)
}

// What threads give by these passes is taken once.
fn given_and_taken<C: Case + Send + Sync, R: Threads + Wait + Abort + Sync>(
    rt: &R,
    queue: &UpcallQueue<C>,
    passes: Vec<Pass<C>>,
) -> Result<(), AllocError>
    requires { All (λ p. p.queue ≡ queue.now.name) passes.items }
{
    let mut passes = given(rt, queue, passes)?;
    assert_eq!(rt; passes.len(), GIVERS);
    let other = passes.remove(1);
    let mut whole = passes.remove(0);
    drop(passes);
    queue.take_in(&mut whole, other);
    takes_all(rt, queue, &mut whole);
    drop(whole);
    Ok(())
}

fn takes_all<C: Case, R: Wait + Abort>(rt: &R, queue: &UpcallQueue<C>, whole: &mut Pass<C>)
    requires { whole.old.queue ≡ queue.now.name }
{
    'upcalls: for _ in 0..GIVERS as u32 * EACH {
        assert!(rt; queue.pop(rt, whole).is_some());
    }
    assert!(rt; queue.pop(rt, whole) == None);
}

// Each thread gives by a feeder of its pass, and the passes come back.
fn given<C: Case + Send + Sync, R: Threads + Wait + Sync>(
    rt: &R,
    queue: &UpcallQueue<C>,
    passes: Vec<Pass<C>>,
) -> Result<Vec<Pass<C>>, AllocError>
    requires { All (λ p. p.queue ≡ queue.now.name) passes.items }
    ensures { IfOk result (λ v. All (λ p. p.queue ≡ queue.now.name) v.items) }
{
    thread::map_vec(rt, passes, &|pass| gives(rt, queue, pass))
}

fn gives<C: Case, R: Wait>(rt: &R, queue: &UpcallQueue<C>, pass: Pass<C>) -> Pass<C>
    requires { pass.queue ≡ queue.now.name }
    ensures { result.queue ≡ queue.now.name }
{
    let mut feeder = Feeder::new(rt, queue, pass);
    give_each(&mut feeder);
    feeder.into_pass()
}

fn give_each<C: Case, Q: Upcalls<C>>(queue: &mut Q)
    ensures { Q.rest queue.new ≡ Q.rest queue.old }
{
    'places: for place in 0..EACH {
        if queue.room() > 0 {
            queue.give(1, place);
        }
    }
}
