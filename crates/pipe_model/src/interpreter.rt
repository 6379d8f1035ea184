//! The run of a packet through the tables: lookups and the actions that they lead to, which may lead to further lookups.
ghost use Rattle.std.specs.Prelude.{◌≡◌, ◌-◌, fold, IfOk, OnOk, IsTrue};
ghost use Rattle.spec_actions.specs.Sound.{is_sound, AreSound};
ghost use Rattle.spec_xlate.specs.Translation.{deepest, act, run, look, last_state, pipe};
ghost use Rattle.ovs_fields.specs.Packed.{numbers};
ghost use Rattle.pipe_model.specs.Events.{act_events, events_at, look_events, events_of};
ghost use Rattle.pipe_model.specs.Plains.{translation_in};
ghost use Rattle.pipe_model.specs.States.{state_of};

use crate::lists::{Plain, SpareLists};
use crate::lookups::Lookups;
use crate::translating::{DEEPEST, Translating};
use ovs_fields::Key;
use spec_actions::OfAction;
use std::alloc::AllocError;

/// What one action does. So many depths are left for the lookup that it may lead to.
#[cycle(look)]
fn act<L: Lookups>(
    state: &mut Translating,
    notes: &mut L::Notes,
    sw: &L,
    action: OfAction,
    depths: u32,
) -> Result<(), AllocError>
    requires can_run { L.can_run sw.now }
    requires sound { IsTrue (is_sound action) }
    ensures state { OnOk result (state_of state.new ≡ act (L.switch sw.now) (look (L.switch sw.now) depths) action (state_of state.old)) }
    ensures noted { OnOk result (L.noted notes.new ≡ fold L.after (L.noted notes.old) (act_events (look_events (L.switch sw.now) depths) action (state_of state.old))) }
{
    match action {
        OfAction::Resubmit(table) => look(state, notes, sw, table, depths),
        OfAction::Goto(table) => look(state, notes, sw, table, depths),
        _ => {
            sw.note(action, state.current(), notes);
            state.step(sw.ports(), action)
        }
    }
}

/// What a list of actions does, as far as it goes.
#[cycle(look)]
fn run<L: Lookups>(
    state: &mut Translating,
    notes: &mut L::Notes,
    sw: &L,
    actions: &[OfAction],
    depths: u32,
) -> Result<(), AllocError>
    requires can_run { L.can_run sw.now }
    requires sound { AreSound actions.now }
    ensures state { OnOk result (state_of state.new ≡ run (L.switch sw.now) (look (L.switch sw.now) depths) actions.now (state_of state.old)) }
    ensures noted { OnOk result (L.noted notes.new ≡ fold L.after (L.noted notes.old) (events_at (L.switch sw.now) depths actions.now (state_of state.old))) }
{
    'actions: for action in actions {
        act(state, notes, sw, *action, depths)?;
        if !state.is_going() {
            return Ok(());
        }
    }
    Ok(())
}

/// The depth of a lookup below which so many are left; that of the first is 0.
fn depth_above(depths: u32) -> u32
    ensures { result ≡ deepest - depths }
{
    DEEPEST.saturating_sub(depths)
}

/// A lookup in a table, and all that it leads to. So many depths are left, its own among them.
#[cycle(look)]
fn look<L: Lookups>(
    state: &mut Translating,
    notes: &mut L::Notes,
    sw: &L,
    table: u8,
    depths: u32,
) -> Result<(), AllocError>
    requires can_run { L.can_run sw.now }
    ensures state { OnOk result (state_of state.new ≡ look (L.switch sw.now) depths table (state_of state.old)) }
    ensures noted { OnOk result (L.noted notes.new ≡ fold L.after (L.noted notes.old) (look_events (L.switch sw.now) depths table (state_of state.old))) }
{
    if depths == 0 || state.lookups_left() == 0 {
        state.stop();
        return Ok(());
    }
    state.take_lookup();
    if let Some(found) = sw.find(depth_above(depths - 1), table, state.current(), notes) {
        state.visit(found.number)?;
        run(state, notes, sw, found.actions, depths - 1)?;
        state.resume();
    }
    Ok(())
}

/// What comes of a translation, and the packet's key as it is then.
#[derive(Drop)]
pub struct Ended {
    pub made: Plain,
    pub key: Key,
}

/// Runs a packet of this key through a switch. Each step of the way is noted.
///
/// A translation that passes a limit has no datapath actions: a lookup more than 64 deep, a 513th lookup, a 129th datapath
/// action. Its visits and its notes stay.
///
/// What `lists` hold is dropped, and their memory is used again: none is taken where what is made fits in what they have
/// room for. A translation that passes a limit may need more. The only error is out of memory.
pub fn run_through<L: Lookups>(
    sw: &L,
    lists: SpareLists,
    key: &Key,
    notes: &mut L::Notes,
) -> Result<Ended, AllocError>
    requires { L.can_run sw.now }
    ensures translation { IfOk result (λ e. translation_in e.made ≡ pipe (L.switch sw.now) (numbers key.now)) }
    ensures last { IfOk result (λ e. numbers e.key ≡ (last_state (L.switch sw.now) (numbers key.now)).current) }
    ensures noted { OnOk result (L.noted notes.new ≡ fold L.after (L.noted notes.old) (events_of (L.switch sw.now) (numbers key.now))) }
{
    let mut state = Translating::start(lists, key);
    look(&mut state, notes, sw, 0, DEEPEST + 1)?;
    let last = *state.current();
    Ok(Ended {
        made: state.finish(),
        key: last,
    })
}

/// What a switch makes of a packet of this key: `run_through`, without the key at the end.
pub fn translate_by<L: Lookups>(
    sw: &L,
    lists: SpareLists,
    key: &Key,
    notes: &mut L::Notes,
) -> Result<Plain, AllocError>
    requires { L.can_run sw.now }
    ensures translation { IfOk result (λ p. translation_in p ≡ pipe (L.switch sw.now) (numbers key.now)) }
    ensures noted { OnOk result (L.noted notes.new ≡ fold L.after (L.noted notes.old) (events_of (L.switch sw.now) (numbers key.now))) }
{
    let ended = run_through(sw, lists, key, notes)?;
    Ok(ended.made)
}
