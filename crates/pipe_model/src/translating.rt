ghost use Rattle.std.specs.Prelude.{◌≡◌, ◌+◌, ◌-◌, ◌*◌, ◌≤◌, [], ◌∷◌, ◌^◌, ◌<◌, if◌then◌else◌, IsTrue, OnOk, map, length};
ghost use Rattle.spec_actions.specs.declared.action.DpAction.TheVariants as datapath;
ghost use Rattle.spec_actions.specs.declared.action.OfAction.TheVariants.{Move};
ghost use Rattle.spec_actions.specs.declared.named_field.Prerequisite.TheVariants as needs;
ghost use Rattle.spec_actions.specs.Sound.{fits_name, is_sound};
ghost use Rattle.spec_xlate.specs.Needs.{is_met};
ghost use Rattle.spec_xlate.specs.Tags.{is_full, pushed, popped};
ghost use Rattle.spec_xlate.specs.Translation.{start, in_port_of, emit_all, committed, stopped, with_current, resumed, output, output_all, other_ports, slice_of, slice_bits, write, write_tag, lower_ttl, act, action_limit};
ghost use Rattle.ovs_fields.specs.Packed.{numbers};

use crate::lists::{Plain, SpareLists};
use crate::mode::Mode;
use crate::outputs::{append_outputs, append_outputs_but, cut_off};
use crate::ports::{has_others, other_port};
use dp_actions::{ActionList, Visits};
use named_fields::{
    NamedField, Prerequisite, Slice, TAG_BIT, holds, is_full, named, pop_tag, push_tag, read_slice,
    slice_bits, write_bits, write_field,
};
use ovs_fields::{FieldId, Key};
use spec_actions::OfAction;
use std::alloc::AllocError;

/// The depth of the deepest lookup, that of the first being 0. The limits are this profile's.
pub(crate) const DEEPEST: u32 = 64;

/// How many lookups a translation may make.
const LOOKUP_LIMIT: u32 = 512;

// The bits of a VLAN identifier and of a VLAN priority in `vlan_tci`, and the least one of these (IEEE 802.1Q, 9.6).
const VID_BITS: u16 = 0x0fff;

const PCP_BITS: u16 = 0xe000;

const PCP_UNIT: u16 = 0x2000;

/// A translation under way: what the actions and lookups so far have made of a packet.
///
/// Contracts see it as the `State` of `spec_xlate` (`state_of`), and each call does what a definition there does.
#[derive(Drop)]
pub struct Translating {
    /// The packet's key as the actions so far have made it.
    current: Key,
    /// The key of the frame as the datapath actions so far have made it.
    base: Key,
    actions: ActionList,
    /// The numbers of the rules visited.
    visits: Vec<u32>,
    lookups_left: u32,
    mode: Mode,
    ghost few: { length actions ≤ action_limit },
}

impl Translating {
    ghost use Rattle.spec_xlate.specs.Translation.{translation_of, with_lookups_left};
    ghost use Rattle.pipe_model.specs.Plains.{translation_in};
    ghost use Rattle.pipe_model.specs.States.{state_of, is_going, visiting, stepped, without_rules};

    /// Before the first lookup of a packet, in lists whose memory is used. It takes no more.
    pub fn start(lists: SpareLists, key: &Key) -> Translating
        ensures { state_of result ≡ start (numbers key.now) }
    {
        Translating {
            current: *key,
            base: *key,
            actions: lists.actions,
            visits: lists.visits,
            lookups_left: LOOKUP_LIMIT,
            mode: Mode::Going,
        }
    }

    /// The packet's key as the actions so far have made it.
    pub fn current(&self) -> &Key
        ensures { numbers result.now ≡ (state_of self.now).current }
    {
        &self.current
    }

    /// Whether the list of actions that it is in goes on.
    pub fn is_going(&self) -> bool
        ensures { result ≡ is_going (state_of self.now).mode }
    {
        match self.mode {
            Mode::Going => true,
            Mode::ListEnded | Mode::Stopped => false,
        }
    }

    /// How many lookups are left.
    pub fn lookups_left(&self) -> u32
        ensures { result ≡ (state_of self.now).lookups_left }
    {
        self.lookups_left
    }

    /// Takes one of the lookups that are left.
    pub fn take_lookup(&mut self)
        requires { 0 < (state_of self.old).lookups_left }
        ensures { state_of self.new ≡ with_lookups_left ((state_of self.old).lookups_left - 1) (state_of self.old) }
    {
        self.lookups_left -= 1;
    }

    /// Visits the rule of a number. The only error is out of memory.
    pub fn visit(&mut self, number: u32) -> Result<(), AllocError>
        ensures { OnOk result (state_of self.new ≡ visiting number (state_of self.old)) }
    {
        self.visits.push(number)?;
        Ok(())
    }

    /// Ends the translation.
    pub fn stop(&mut self)
        ensures { state_of self.new ≡ stopped (state_of self.old) }
    {
        self.mode = Mode::Stopped;
    }

    /// Goes on after a list of actions that has ended.
    pub fn resume(&mut self)
        ensures { state_of self.new ≡ resumed (state_of self.old) }
    {
        match self.mode {
            Mode::ListEnded => self.mode = Mode::Going,
            Mode::Going | Mode::Stopped => {}
        }
    }

    /// What it came to: without datapath actions where it has ended as a whole. It takes no memory.
    pub fn finish(mut self) -> Plain
        ensures { translation_in result ≡ translation_of (state_of self) }
    {
        if let Mode::Stopped = self.mode {
            self.actions.truncate(0);
        }
        Plain {
            actions: self.actions,
            visits: Visits::new(self.visits),
        }
    }

    /// What an action does that leads to no lookup. One that leads to a lookup does nothing here.
    ///
    /// `ports` are the numbers of the switch's ports, in any order. The only error is out of memory.
    pub fn step(&mut self, ports: &[u16], action: OfAction) -> Result<(), AllocError>
        requires { IsTrue (is_sound action) }
        ensures { OnOk result (state_of self.new ≡ stepped ports.now action (state_of self.old)) }
    {
        match action {
            OfAction::Output(port) => self.output(ports, u128::from(port))?,
            OfAction::OutputField(slice) => {
                let number = read_slice(&self.current, &slice);
                self.output(ports, number)?;
            }
            OfAction::InPort => self.send_back()?,
            OfAction::All => self.send_on(ports)?,
            OfAction::Flood => self.send_on(ports)?,
            OfAction::Resubmit(_) => {}
            OfAction::Goto(_) => {}
            OfAction::Set { name, value, mask } => self.write(name, value, mask),
            OfAction::Move { from, to } => self.copy_bits(from, to),
            OfAction::DecTtl => self.lower_ttl(),
            OfAction::PushVlan(tpid) => self.push_tag(tpid),
            OfAction::PopVlan => self.pop_tag(),
            OfAction::SetVid(vid) => self.write_tag(vid, VID_BITS),
            OfAction::SetPcp(pcp) => self.write_tag(u16::from(pcp) * PCP_UNIT, PCP_BITS),
        }
        Ok(())
    }

    fn in_port(&self) -> u16
        ensures { result ≡ in_port_of (state_of self.now).current }
    {
        self.current.get(FieldId::InPort) as u16
    }

    /// Makes the frame one of the current key, and sends it to these ports.
    fn send(&mut self, ports: &[u16]) -> Result<(), AllocError>
        ensures { OnOk result (state_of self.new ≡ emit_all (map datapath.Output ports.now) (committed (state_of self.old))) }
    {
        let appended = append_outputs(&self.base, &self.current, ports, &mut self.actions);
        self.mode = cut_off(&mut self.actions, self.mode);
        self.base = self.current;
        appended
    }

    /// Sends to the port of a number, if it is one of the switch by which the packet didn't come in.
    fn output(&mut self, ports: &[u16], number: u128) -> Result<(), AllocError>
        ensures { OnOk result (state_of self.new ≡ output (without_rules ports.now) number (state_of self.old)) }
    {
        match other_port(ports, &self.current, number) {
            None => Ok(()),
            Some(port) => self.send(&[port]),
        }
    }

    /// Sends to the port where the packet came in.
    fn send_back(&mut self) -> Result<(), AllocError>
        ensures { OnOk result (state_of self.new ≡ emit_all (map datapath.Output (in_port_of (state_of self.old).current ∷ [])) (committed (state_of self.old))) }
    {
        let port = self.in_port();
        self.send(&[port])
    }

    /// Sends to every other port.
    fn send_on(&mut self, ports: &[u16]) -> Result<(), AllocError>
        ensures { OnOk result (state_of self.new ≡ output_all (other_ports (without_rules ports.now) (state_of self.old).current) (state_of self.old)) }
    {
        let in_port = self.in_port();
        if !has_others(ports, in_port) {
            return Ok(());
        }
        let actions = &mut self.actions;
        let appended = append_outputs_but(&self.base, &self.current, ports, in_port, actions);
        self.mode = cut_off(&mut self.actions, self.mode);
        self.base = self.current;
        appended
    }

    /// Writes bits of a named field, if the packet is what that needs.
    fn write(&mut self, name: NamedField, value: u128, bits: u128)
        requires { IsTrue (fits_name name value) }
        ensures { state_of self.new ≡ write name value bits (state_of self.old) }
    {
        if !holds(&self.current, named(name).write_needs) {
            return;
        }
        write_bits(&mut self.current, name, value, bits);
    }

    /// Copies bits of a field into as many of another one.
    fn copy_bits(&mut self, from: Slice, to: Slice)
        requires { IsTrue (is_sound (Move from to)) }
        ensures { state_of self.new ≡ write to.name (slice_of (state_of self.old).current from * 2 ^ to.low) (slice_bits to) (state_of self.old) }
    {
        let number = read_slice(&self.current, &from);
        self.write(to.name, number << to.low, slice_bits(&to));
    }

    /// Lowers the TTL or hop limit of an IP packet by one. One of 0 or 1 stays, and ends the list of actions.
    fn lower_ttl(&mut self)
        ensures { state_of self.new ≡ (if is_met needs.Ip (state_of self.old).current then lower_ttl (state_of self.old) else state_of self.old) }
    {
        if !holds(&self.current, Prerequisite::Ip) {
            return;
        }
        let ttl = self.current.get(FieldId::NwTtl);
        if ttl <= 1 {
            self.mode = Mode::ListEnded;
            return;
        }
        self.current.set(FieldId::NwTtl, ttl - 1);
    }

    /// Adds a VLAN tag of this type outside; a packet that has two has no room for another, and ends the translation.
    fn push_tag(&mut self, tpid: u16)
        ensures { state_of self.new ≡ (if is_full (state_of self.old).current then stopped (state_of self.old) else with_current (pushed tpid (state_of self.old).current) (state_of self.old)) }
    {
        if is_full(&self.current) {
            self.mode = Mode::Stopped;
            return;
        }
        push_tag(&mut self.current, tpid);
    }

    /// Takes the outer VLAN tag away.
    fn pop_tag(&mut self)
        ensures { state_of self.new ≡ with_current (popped (state_of self.old).current) (state_of self.old) }
    {
        pop_tag(&mut self.current);
    }

    /// Writes bits of the VLAN tag, and adds one where there is none.
    fn write_tag(&mut self, value: u16, bits: u16)
        requires value { value + TAG_BIT < 2 ^ 16 }
        requires bits { bits + TAG_BIT < 2 ^ 16 }
        ensures { state_of self.new ≡ write_tag value bits (state_of self.old) }
    {
        let (value, bits) = (value + TAG_BIT, bits + TAG_BIT);
        write_field(
            &mut self.current,
            FieldId::VlanTci,
            u128::from(value),
            u128::from(bits),
        );
    }
}
