//! The handling of upcalls.
ghost use Rattle.std.specs.Prelude.{◌≡◌, ◌+◌, ◌≤◌, ◌<◌, All, IfOk, IfSome, IfNone, length, vec_len};
ghost use Rattle.ovs_fields.specs.Packed.{numbers};
ghost use Rattle.run_case.specs.Places.{HasPort, HasPlace};
ghost use Rattle.table_publish.specs.Versions.{EndsBlock};
ghost use Rattle.upcall_handler.specs.Upshots.{HasCause, HasCauses, count_of};

use crate::settling::settle_lent;
use crate::translated::Translated;
use crate::upshot::{Handled, Settling, Upshot};
use edge_io::{Gate, Point};
use pmd_board::{Board, Xlated};
use run_case::{Case, Keyed, RunData};
use std::alloc::{AllocError, Global};
use std::sync::{Mutex, Wait};
use table_publish::{Seer, SpareLists, translate_newest};
use table_versions::RunTables;
use upcall_queue::upcalls::Upcall;

/// How often a frame is translated, where each time a newer sweep had begun.
pub const TRIES: u32 = 4;

// The frame of an upcall, if the run has it.
fn frame_of<C: Case>(run: &RunData<C>, upcall: Upcall) -> Option<Keyed<C>>
    ensures some { IfSome result (λ at. (at.port ≡ upcall.port) × (at.place ≡ upcall.place)) }
    ensures none { IfNone result
        (HasPort C.run.ports upcall.port → HasPlace C.run upcall.port upcall.place → ⊥) }
{
    run.ports().find(upcall.port)?;
    if upcall.place == 0 || upcall.place > run.frames(upcall.port) {
        return None;
    }
    Some(run.keyed(upcall.port, upcall.place))
}

// Translates the key of a frame under the newest version that is published. The gate is told after that.
fn translate_frame<C: Case, T: RunTables<C>, G: Gate, R: Wait>(
    rt: &R,
    alloc: Global,
    seer: Seer<C, T>,
    run: &RunData<C>,
    at: &Keyed<C>,
    gate: &G,
) -> (Seer<C, T>, Result<Xlated<C>, AllocError>)
    ensures publication { result.0.publication ≡ seer.publication }
    ensures newer { seer.version ≤ result.0.version }
    ensures key { IfOk result.1 (λ made. made.key ≡ numbers at.now.key) }
    ensures version { IfOk result.1 (λ made. made.version ≡ result.0.version) }
{
    let (seer, made) = translate_newest(rt, seer, run, &at.key, SpareLists::new(alloc));
    if made.is_ok() {
        gate.pass(Point::Upcall {
            port: at.port,
            place: at.place,
        });
    }
    (seer, made)
}

// Translates a frame and settles it, in its tries from this one on, counted from 0.
fn handle_frame<C: Case, T: RunTables<C>, G: Gate, R: Wait>(
    rt: &R,
    alloc: Global,
    seer: Seer<C, T>,
    run: &RunData<C>,
    board: &Mutex<Board<C>>,
    at: &Keyed<C>,
    from: u32,
    gate: &G,
) -> (Seer<C, T>, Result<Upshot, AllocError>)
    requires { from < TRIES }
    ensures publication { result.0.publication ≡ seer.publication }
    ensures newer { seer.version ≤ result.0.version }
    ensures cause { IfOk result.1 (λ r. HasCause C.run result.0.version r) }
{
    let mut seer = seer;
    let mut floor = 0;
    'tries: for _ in from..TRIES {
        let (back, made) = translate_frame(rt, alloc, seer, run, at, gate);
        seer = back;
        let Ok(made) = made else {
            return (seer, Err(AllocError));
        };
        let answer = settle_lent(&mut *board.lock(rt), at, made);
        match answer {
            Ok(Settling::Done) => return (seer, Ok(Upshot::Done)),
            Ok(Settling::Gone) => return (seer, Ok(Upshot::Gone)),
            Ok(Settling::Stale { floor: newest }) => floor = newest,
            Ok(Settling::Ahead { hi }) => return (seer, Ok(Upshot::Beyond { hi })),
            Err(e) => return (seer, Err(e)),
        }
    }
    (seer, Ok(Upshot::Left { floor }))
}

// Translates the frames of upcalls in order, each under the newest version that is published then, and passes those
// over that the run doesn't have. The gate is told of each one that is translated.
fn translate_each<C: Case, T: RunTables<C>, G: Gate, R: Wait>(
    rt: &R,
    alloc: Global,
    seer: Seer<C, T>,
    run: &RunData<C>,
    upcalls: &[Upcall],
    gate: &G,
) -> (Seer<C, T>, Result<Vec<Translated<C>>, AllocError>)
    ensures publication { result.0.publication ≡ seer.publication }
    ensures newer { seer.version ≤ result.0.version }
    ensures count { IfOk result.1 (λ batch. vec_len batch ≤ length upcalls.now) }
    ensures seen { IfOk result.1 (λ batch. All (λ t. t.made.version ≤ result.0.version) batch.items) }
{
    let mut seer = seer;
    let mut batch = Vec::new(alloc);
    if batch.reserve(upcalls.len()).is_err() {
        return (seer, Err(AllocError));
    }
    'upcalls: for upcall in upcalls {
        let Some(at) = frame_of(run, *upcall) else {
            continue;
        };
        let (back, made) = translate_frame(rt, alloc, seer, run, &at, gate);
        seer = back;
        let Ok(made) = made else {
            return (seer, Err(AllocError));
        };
        if batch.push(Translated { at, made }).is_err() {
            return (seer, Err(AllocError));
        }
    }
    (seer, Ok(batch))
}

// Settles frames on a board under one lock, in order, each by its translation, and counts what became of them. Those
// whose translations are older than a sweep that began are answered, and aren't counted. The seer has seen the version
// of each translation, of which the contract speaks.
fn settle_each<C: Case, T: RunTables<C>, R: Wait>(
    rt: &R,
    alloc: Global,
    seer: &Seer<C, T>,
    board: &Mutex<Board<C>>,
    batch: Vec<Translated<C>>,
    handled: &mut Handled,
) -> Result<Vec<Keyed<C>>, AllocError>
    requires seen { All (λ t. t.made.version ≤ seer.now.version) batch.items }
    requires room { count_of handled.old + vec_len batch ≤ usize.MAX }
    requires left { handled.old.left ≡ 0 }
    requires beyond { handled.old.beyond ≡ 0 }
    ensures count { IfOk result (λ stale.
        count_of handled.new + vec_len stale ≡ count_of handled.old + vec_len batch) }
    ensures left { handled.new.left ≡ 0 }
    ensures beyond { 0 < handled.new.beyond → (handled.new.hi < seer.now.version) × EndsBlock C.run handled.new.hi }
{
    let mut stale = Vec::new(alloc);
    let mut lent = board.lock(rt);
    'frames: for Translated { at, made } in batch {
        match settle_lent(&mut *lent, &at, made)? {
            Settling::Done => handled.count(Upshot::Done),
            Settling::Gone => handled.count(Upshot::Gone),
            Settling::Ahead { hi } => handled.count(Upshot::Beyond { hi }),
            Settling::Stale { .. } => stale.push(at)?,
        }
    }
    Ok(stale)
}

// Handles the upcalls of frames whose first translations were stale, and counts what became of them too.
#[tactic(auto, using(crate::proofs::Counts::causes_counted))]
fn handle_stale<C: Case, T: RunTables<C>, G: Gate, R: Wait>(
    rt: &R,
    alloc: Global,
    seer: Seer<C, T>,
    run: &RunData<C>,
    board: &Mutex<Board<C>>,
    stale: &[Keyed<C>],
    handled: Handled,
    gate: &G,
) -> (Seer<C, T>, Result<Handled, AllocError>)
    requires room { count_of handled + length stale.now ≤ usize.MAX }
    requires left { handled.left ≡ 0 }
    requires beyond { 0 < handled.beyond → (handled.hi < seer.version) × EndsBlock C.run handled.hi }
    ensures publication { result.0.publication ≡ seer.publication }
    ensures newer { seer.version ≤ result.0.version }
    ensures count { IfOk result.1 (λ all. count_of all ≡ count_of handled + length stale.now) }
    ensures causes { IfOk result.1 (HasCauses C.run seer.version result.0.version) }
{
    let mut seer = seer;
    let mut handled = handled;
    'stale: for at in stale {
        let (back, upshot) = handle_frame(rt, alloc, seer, run, board, at, 1, gate);
        seer = back;
        let Ok(upshot) = upshot else {
            return (seer, Err(AllocError));
        };
        handled.count(upshot);
    }
    (seer, Ok(handled))
}

/// Handles upcalls of frames of one port, and tells what became of each of them: it translates each frame's key under
/// the newest version that is published then, and settles all of them on their board under one lock. Where a newer
/// sweep has begun there, a frame is translated again, `TRIES` times at most in all, and then settled under a lock of
/// its own.
///
/// The gate is told of each translation, before the frame is settled by it. The seer is handed back. The only error
/// is out of memory, and then frames may be left.
pub fn handle_all<C: Case, T: RunTables<C>, G: Gate, R: Wait>(
    rt: &R,
    alloc: Global,
    seer: Seer<C, T>,
    run: &RunData<C>,
    board: &Mutex<Board<C>>,
    upcalls: &[Upcall],
    gate: &G,
) -> (Seer<C, T>, Result<Handled, AllocError>)
    ensures publication { result.0.publication ≡ seer.publication }
    ensures newer { seer.version ≤ result.0.version }
    ensures all { IfOk result.1 (λ handled. count_of handled ≡ length upcalls.now) }
    ensures causes { IfOk result.1 (HasCauses C.run seer.version result.0.version) }
{
    let (seer, batch) = translate_each(rt, alloc, seer, run, upcalls, gate);
    let Ok(batch) = batch else {
        return (seer, Err(AllocError));
    };
    let mut handled = Handled::none();
    handled.gone = upcalls.len() - batch.len();
    let Ok(stale) = settle_each(rt, alloc, &seer, board, batch, &mut handled) else {
        return (seer, Err(AllocError));
    };
    handle_stale(rt, alloc, seer, run, board, stale.as_slice(), handled, gate)
}
