//! Which ports actions may send to, told in a number, so that a port passes over the frames of others quickly, and
//! whether all that they do is to send once.
ghost use Rattle.std.specs.Prelude.{◌≡◌, ◌%◌, ◌^◌, ◌<◌, ◌≤◌, ℕ, false, All, IfOk, IsTrue, length, get_or};
ghost use Rattle.std.specs.Int.{bit_at};
ghost use Rattle.spec_case.specs.Arrivals.{in_order, arrivals as came_in};
ghost use Rattle.egress_capture.specs.Sending.{sends_to};
ghost use Rattle.egress_capture.specs.Filters.{bit_of, PassesAll, IsSingle, SendsOnlyTo, LackBit, AreFilters};

use run_boards::Finished;
use run_case::{Case, RunData};
use spec_actions::DpAction;
use std::alloc::{AllocError, Global};

/// How many bits a filter has.
const BITS: u16 = 32;

/// How many filters are passed over at once.
const AT_ONCE: usize = 8;

/// A bit for each port that a list of actions sends to: that of the port's number modulo `BITS`.
///
/// Ports share bits, so that a port whose bit is there may still get nothing. One whose bit isn't there gets nothing.
///
/// Where the filter is `single`, one output to `port` is all that the actions are.
#[derive(Clone, Copy)]
pub struct PortFilter {
    bits: u32,
    port: u16,
    single: bool,
}

// The bit of a port, alone.
fn mask_of(port: u16) -> u32
    ensures { result ≡ 2 ^ bit_of port }
{
    1 << (port % BITS)
}

// The bits with that of the port of one more action, if it is an output.
fn with_bit(bits: u32, action: &DpAction) -> u32
    ensures { (port : ℕ) → bit_at result (bit_of port) ≡ 0
        → (bit_at bits (bit_of port) ≡ 0) × (sends_to port action.now ≡ false) }
{
    match action {
        DpAction::Output(port) => bits | mask_of(*port),
        _ => bits,
    }
}

// A bit for each port that actions send to.
fn bits_of(actions: &[DpAction]) -> u32
    ensures { (port : ℕ) → bit_at result (bit_of port) ≡ 0
        → All (λ a. sends_to port a ≡ false) actions.now }
{
    let mut bits = 0;
    'actions: for action in actions {
        bits = with_bit(bits, action);
    }
    bits
}

impl PortFilter {
    // The filter of actions. Most lists are one output.
    fn of(actions: &[DpAction]) -> PortFilter
        ensures passes { PassesAll actions.now result }
        ensures single { IsSingle actions.now result }
    {
        match actions {
            [DpAction::Output(port)] => PortFilter {
                bits: mask_of(*port),
                port: *port,
                single: true,
            },
            _ => PortFilter {
                bits: bits_of(actions),
                port: 0,
                single: false,
            },
        }
    }

    /// Whether the port's bit is there.
    pub fn may_send_to(self, port: u16) -> bool
        ensures { result ≡ false → bit_at self.bits (bit_of port) ≡ 0 }
    {
        self.bits >> (port % BITS) & 1 == 1
    }

    /// Whether one output to the port is all that the actions are.
    pub fn only_sends_to(self, port: u16) -> bool
        ensures { IsTrue result → SendsOnlyTo port self }
    {
        self.single && self.port == port
    }

    /// Whether the bit of one of these ports is there.
    pub fn may_send_to_one(self, ports: &[u16]) -> bool
        ensures { result ≡ false → All (λ port. bit_at self.bits (bit_of port) ≡ 0) ports.now }
    {
        'ports: for port in ports {
            if self.may_send_to(*port) {
                return true;
            }
        }
        false
    }
}

// The bits that some filters have together.
fn joined_bits(filters: &[PortFilter]) -> u32
    ensures { (n : ℕ) → bit_at result n ≡ 0
        → (k : ℕ) (f : PortFilter) → k < length filters.now → bit_at (get_or filters.now k f).bits n ≡ 0 }
{
    let mut joined = 0;
    'filters: for filter in filters {
        joined |= filter.bits;
    }
    joined
}

/// The place of the next filter, from one on, that has the bit of a port; as many as there are where none has it.
///
/// Where one frame goes out at a port, the next one often does too, so that filter is looked at first. Of what a port doesn't
/// get this is all that is done for it, so several filters are looked at together.
pub(crate) fn next_with_bit(filters: &[PortFilter], from: usize, port: u16) -> usize
    requires { from ≤ length filters.now }
    ensures from { from ≤ result }
    ensures within { result ≤ length filters.now }
    ensures passed { LackBit filters.now port from result }
{
    let mask = mask_of(port);
    let mut at = from;
    if at < filters.len() && filters[at].bits & mask != 0 {
        return at;
    }
    'several: while filters.len() - at >= AT_ONCE
        && joined_bits(&filters[at..at + AT_ONCE]) & mask == 0
    {
        at += AT_ONCE;
    }
    'each: while at < filters.len() && filters[at].bits & mask == 0 {
        at += 1;
    }
    at
}

/// The filters of what was decided of each arrival, in the order of the arrivals. They are made once, for the files of
/// all ports.
///
/// It takes 8 bytes for each arrival; there may be no memory for them.
pub fn filters_of<C: Case>(
    alloc: Global,
    run: &RunData<C>,
    finished: &Finished<C>,
) -> Result<Vec<PortFilter>, AllocError>
    ensures { IfOk result (λ v. AreFilters C.run finished.now (in_order (came_in C.run)) v.items) }
{
    let came = finished.arrivals();
    let mut filters = Vec::with_capacity(alloc, came.len())?;
    'arrivals: for arrival in came {
        let actions = finished.actions(run, *arrival);
        filters.push(PortFilter::of(actions))?;
    }
    Ok(filters)
}
