ghost use Rattle.std.specs.Prelude.{◌≡◌, ◌++◌, OnOk, OnErr, IfOk, IsPermutation};
ghost use Rattle.spec_case.specs.Run.{frames_of};
ghost use Rattle.spec_case.specs.Arrivals.{arrivals_at, arrivals, in_order};
ghost use Rattle.run_case.specs.Places.{HasPort};

use run_case::{Case, RunData};
use spec_case::Arrival;
use std::alloc::{AllocError, Global};

// Puts arrivals in the order of time, of equal times by ingress port, and then by place. Out of memory they stay as they
// were.
fn sort_arrivals(arrivals: &mut Vec<Arrival>) -> Result<(), AllocError>
    ensures sorted { OnOk result (arrivals.new.items ≡ in_order arrivals.old.items) }
    ensures permutation { IsPermutation arrivals.old.items arrivals.new.items }
    ensures err { OnErr result (arrivals.new.items ≡ arrivals.old.items) }
{
    arrivals.sort()
}

// Adds the arrivals at a port, in the order of places.
fn add_arrivals<C: Case>(
    arrivals: &mut Vec<Arrival>,
    run: &RunData<C>,
    port: u16,
) -> Result<(), AllocError>
    requires { HasPort C.run.ports port }
    ensures { OnOk result (arrivals.new.items ≡ arrivals.old.items ++ arrivals_at port 1 (frames_of C.run port)) }
{
    'places: for before in 0..run.frames(port) {
        let place = before + 1;
        arrivals.push(Arrival {
            time: run.time(port, place),
            port,
            place,
        })?;
    }
    Ok(())
}

// The arrivals of all frames, by port and place.
fn all_arrivals<C: Case>(alloc: Global, run: &RunData<C>) -> Result<Vec<Arrival>, AllocError>
    ensures { IfOk result (λ v. v.items ≡ arrivals C.run) }
{
    let mut found = Vec::new(alloc);
    'traces: for port in run.ports().as_slice() {
        add_arrivals(&mut found, run, *port)?;
    }
    Ok(found)
}

/// The arrivals of the frames of all ports, in order. It is made once, for the files of all ports.
///
/// It takes memory for each frame; there may be none.
pub fn arrivals_of<C: Case>(alloc: Global, run: &RunData<C>) -> Result<Vec<Arrival>, AllocError>
    ensures { IfOk result (λ v. v.items ≡ in_order (arrivals C.run)) }
{
    let mut found = all_arrivals(alloc, run)?;
    sort_arrivals(&mut found)?;
    Ok(found)
}
