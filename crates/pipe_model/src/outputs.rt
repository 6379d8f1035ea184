//! What an output appends, and the limit on what a translation may emit.
ghost use Rattle.std.specs.Prelude.{◌≡◌, ◌==◌, ◌++◌, nat_lt, if◌then◌else◌, OnOk, filter, map, length, take};
ghost use Rattle.spec_actions.specs.declared.action.DpAction.TheVariants as datapath;
ghost use Rattle.spec_xlate.specs.Commit.{commit};
ghost use Rattle.spec_xlate.specs.Translation.{action_limit};
ghost use Rattle.spec_xlate.specs.Translation.Mode.{Stopped};
ghost use Rattle.ovs_fields.specs.Packed.{numbers};
ghost use Rattle.pipe_model.specs.Modes.{mode_of};
ghost use Rattle.pipe_model.specs.Others.{others_of};

use crate::mode::Mode;
use crate::ports::next_other;
use dp_actions::{ActionList, DpAction, commit};
use ovs_fields::Key;
use std::alloc::AllocError;

/// How many datapath actions a translation may emit (the limit is this profile's).
const ACTION_LIMIT: usize = 128;

/// Appends what makes a frame of one key into a frame of another, and outputs to these ports.
pub(crate) fn append_outputs(
    base: &Key,
    current: &Key,
    ports: &[u16],
    actions: &mut ActionList,
) -> Result<(), AllocError>
    ensures { OnOk result (actions.new ≡ actions.old ++ (commit (numbers base.now) (numbers current.now) ++ map datapath.Output ports.now)) }
{
    commit(base, current, actions)?;
    'ports: for port in ports {
        actions.push(DpAction::Output(*port))?;
    }
    Ok(())
}

/// Appends what makes a frame of one key into a frame of another, and outputs to all ports but one, in rising order.
///
/// It goes from each port to the next higher one, by a pass over the ports, of which a switch has few. So it needs no sorted
/// copy of them.
pub(crate) fn append_outputs_but(
    base: &Key,
    current: &Key,
    ports: &[u16],
    in_port: u16,
    actions: &mut ActionList,
) -> Result<(), AllocError>
    ensures { OnOk result (actions.new ≡ actions.old ++ (commit (numbers base.now) (numbers current.now) ++ map datapath.Output (others_of in_port ports.now))) }
{
    commit(base, current, actions)?;
    let mut from: u32 = 0;
    'numbers: while let Some(number) = next_other(ports, in_port, from) {
        append_outputs_to(number, ports, actions)?;
        from = u32::from(number) + 1;
    }
    Ok(())
}

/// Appends an output for each port of a number.
fn append_outputs_to(number: u16, ports: &[u16], actions: &mut ActionList) -> Result<(), AllocError>
    ensures { OnOk result (actions.new ≡ actions.old ++ map datapath.Output (filter (λ p. p == number) ports.now)) }
{
    'ports: for port in ports {
        if *port == number {
            actions.push(DpAction::Output(*port))?;
        }
    }
    Ok(())
}

/// Cuts off the actions that are beyond the limit, and answers how the translation goes on: where there were such, it has
/// ended.
pub(crate) fn cut_off(actions: &mut ActionList, mode: Mode) -> Mode
    ensures actions { actions.new ≡ take action_limit actions.old }
    ensures mode { mode_of result ≡ (if nat_lt action_limit (length actions.old) then Stopped else mode_of mode) }
{
    if actions.len() <= ACTION_LIMIT {
        return mode;
    }
    actions.truncate(ACTION_LIMIT);
    Mode::Stopped
}
