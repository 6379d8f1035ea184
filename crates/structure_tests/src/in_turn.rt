//! What one thread puts and takes, by one pass or by two.
ghost use Rattle.std.specs.Prelude.{◌≡◌};

use run_case::Case;
use std::alloc::Global;
use std::marker::Brand;
use std::process::Abort;
use std::sync::Wait;
use std::test::*;
use upcall_queue::{Pass, Upcall, UpcallQueue};

const FIRST: Upcall = Upcall { port: 1, place: 1 };

const SECOND: Upcall = Upcall { port: 2, place: 7 };

#[test]
fn upcalls_come_in_the_order_in_which_passes_put_them(rt: HostRuntime) -> Result<(), Fail> {
    by_two_passes::<Brand, _>(&rt, rt.alloc())
}

fn by_two_passes<C: Case, R: Wait + Abort>(rt: &R, alloc: Global) -> Result<(), Fail> {
    let (queue, mut passes) = UpcallQueue::<C>::new(alloc, 2, 2)?;
    let mut whole = passes.remove(0);
    let mut other = passes.remove(0);
    drop(passes);
    each_puts_one(rt, &queue, &mut whole, &mut other);
    queue.take_in(&mut whole, other);
    takes_the_second(rt, &queue, &mut whole);
    drop(whole);
    drop(queue);
    Ok(())
}

// Each pass puts an upcall, and the other pass takes the first one.
fn each_puts_one<C: Case, R: Wait + Abort>(
    rt: &R,
    queue: &UpcallQueue<C>,
    whole: &mut Pass<C>,
    other: &mut Pass<C>,
)
    requires whole { whole.old.queue ≡ queue.now.name }
    requires other { other.old.queue ≡ queue.now.name }
    ensures whole { whole.new.queue ≡ whole.old.queue }
    ensures other { other.new.queue ≡ other.old.queue }
{
    assert!(rt; queue.push(rt, whole, FIRST).is_ok());
    assert!(rt; queue.push(rt, other, SECOND).is_ok());
    assert!(rt; queue.pop(rt, other) == Some(FIRST));
}

fn takes_the_second<C: Case, R: Wait + Abort>(rt: &R, queue: &UpcallQueue<C>, whole: &mut Pass<C>)
    requires { whole.old.queue ≡ queue.now.name }
{
    assert!(rt; queue.pop(rt, whole) == Some(SECOND));
    assert!(rt; queue.pop(rt, whole) == None);
    assert_eq!(rt; whole.refused(), 0);
}

#[test]
fn a_full_queue_hands_an_upcall_back_and_a_popped_place_is_free_again(
    rt: HostRuntime,
) -> Result<(), Fail> {
    with_one_place::<Brand, _>(&rt, rt.alloc())
}

fn with_one_place<C: Case, R: Wait + Abort>(rt: &R, alloc: Global) -> Result<(), Fail> {
    let (queue, mut passes) = UpcallQueue::<C>::new(alloc, 1, 2)?;
    let mut pass = passes.remove(1);
    drop(passes);
    hands_back_where_full(rt, &queue, &mut pass);
    has_a_free_place_again(rt, &queue, &mut pass);
    drop(pass);
    drop(queue);
    Ok(())
}

fn hands_back_where_full<C: Case, R: Wait + Abort>(
    rt: &R,
    queue: &UpcallQueue<C>,
    pass: &mut Pass<C>,
)
    requires { pass.old.queue ≡ queue.now.name }
    ensures { pass.new.queue ≡ pass.old.queue }
{
    assert_eq!(rt; queue.room(rt, pass), 1);
    assert!(rt; queue.push(rt, pass, FIRST).is_ok());
    assert_eq!(rt; queue.room(rt, pass), 0);
    assert!(rt; queue.push(rt, pass, SECOND) == Err(SECOND));
    assert_eq!(rt; pass.refused(), 1);
}

fn has_a_free_place_again<C: Case, R: Wait + Abort>(
    rt: &R,
    queue: &UpcallQueue<C>,
    pass: &mut Pass<C>,
)
    requires { pass.old.queue ≡ queue.now.name }
{
    assert!(rt; queue.pop(rt, pass) == Some(FIRST));
    assert_eq!(rt; queue.room(rt, pass), 1);
    assert!(rt; queue.push(rt, pass, SECOND).is_ok());
    assert!(rt; queue.pop(rt, pass) == Some(SECOND));
    assert!(rt; queue.pop(rt, pass) == None);
}
