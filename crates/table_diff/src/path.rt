//! The way of a translation for all packets that agree on a mask.
ghost use Rattle.std.specs.Prelude.{◌≡◌, ◌≤◌, ◌<◌, ◌^◌, ◌==◌, ◌&&◌, ◌++◌, [], ◌∷◌, true, if◌then◌else◌, length, vec_capacity, IsTrue, IfOk};
ghost use Rattle.std.specs.List.{list_any};
ghost use Rattle.spec_keys.specs.Fields.{width_of};
ghost use Rattle.spec_keys.specs.Keys.{none};
ghost use Rattle.spec_actions.specs.Sound.{is_sound, is_sound_slice, AreSound};
ghost use Rattle.spec_xlate.specs.Tags.{is_tag_field};
ghost use Rattle.spec_xlate.specs.Needs.{fields_needed};
ghost use Rattle.spec_xlate.specs.Translation.{switch_of, action_limit, is_other_port};
ghost use Rattle.ovs_fields.specs.Packed.{numbers, bits};
ghost use Rattle.table_diff.specs.Following.{path_limit, sends, cost, is_left_out, with_registers};

use crate::choosing::{add_match, filled};
use crate::whole::{add_field, add_whole};
use crate::written::{TAG_FIELDS, add_written, forgotten};
use named_fields::{NamedField, Prerequisite, Slice, TAG_BIT, holds, is_full, low_bits, named};
use ovs_fields::{FieldId, Key, Mask, all_fields, covers, width};
use rule_tables::{Match, OfAction};
use std::alloc::{AllocError, Global};
use xlate_pipeline::consult;

/// How many datapath actions a translation may have (the limit is this profile's).
const ACTION_LIMIT: u128 = 128;

/// How many datapath actions a commit gives at most: one for each field, and two tags that go and two that come.
const COMMIT_LIMIT: u128 = 16;

/// How many flow actions are kept.
const PATH_LIMIT: usize = 128;

/// The bits of a TTL of which one is set where the TTL is not 0 or 1.
const HIGH_BITS: u128 = 0xfe;

/// Metadata and the registers, which are 0 in the keys of frames.
const REGISTERS: [FieldId; 17] = [
    FieldId::Metadata,
    FieldId::Reg0,
    FieldId::Reg1,
    FieldId::Reg2,
    FieldId::Reg3,
    FieldId::Reg4,
    FieldId::Reg5,
    FieldId::Reg6,
    FieldId::Reg7,
    FieldId::Reg8,
    FieldId::Reg9,
    FieldId::Reg10,
    FieldId::Reg11,
    FieldId::Reg12,
    FieldId::Reg13,
    FieldId::Reg14,
    FieldId::Reg15,
];

/// The way of a translation so far, for all packets that agree with the first one on a mask.
///
/// There is room for all actions that are kept, so that to keep one takes no memory.
#[derive(Drop)]
pub(crate) struct Path<'a> {
    ports: &'a [u16],
    /// The bits on which all packets agree.
    mask: Mask,
    /// The bits of their keys, as these are now, that are the same for all.
    known: Mask,
    /// The fields that were written.
    touched: Mask,
    /// The actions carried out, lookups followed.
    actions: Vec<OfAction>,
    /// How many datapath actions there are at most.
    used: u128,
    /// Whether keys may have changed since the frame was sent.
    dirty: bool,
    /// Whether each step was decided.
    fine: bool,
    ghost room: { path_limit ≤ vec_capacity actions },
    ghost sound: { AreSound actions.items },
    ghost few: { used ≤ action_limit },
}

fn is_port(ports: &[u16], number: u16) -> bool
    ensures { result ≡ list_any (λ p. number == p) ports.now }
{
    ports.iter().any(|port| number == *port)
}

/// Whether a number is that of a port by which the packet didn't come in.
fn is_other_port(ports: &[u16], key: &Key, number: u16) -> bool
    ensures { result ≡ is_other_port (switch_of [] ports.now) (numbers key.now) number }
{
    is_port(ports, number) & (u128::from(number) != key.get(FieldId::InPort))
}

/// To how many ports an action sends at most.
#[tactic(auto, unfolding(crate::specs::Following::sends))]
fn sends(ports: &[u16], action: OfAction, key: &Key) -> usize
    ensures { result ≡ sends ports.now action (numbers key.now) }
{
    match action {
        OfAction::Output(port) => {
            if is_other_port(ports, key, port) {
                1
            } else {
                0
            }
        }
        OfAction::OutputField(_) => 1,
        OfAction::InPort => 1,
        OfAction::All => ports.len(),
        OfAction::Flood => ports.len(),
        _ => 0,
    }
}

/// How many datapath actions come of that at most.
fn cost(dirty: bool, sends: usize) -> u128
    ensures { result ≡ cost dirty sends }
{
    if sends == 0 {
        return 0;
    }
    if dirty {
        COMMIT_LIMIT + sends as u128
    } else {
        sends as u128
    }
}

/// Whether an action does nothing but end its list, or the translation.
#[tactic(auto, unfolding(crate::specs::Following::is_left_out))]
fn is_left_out(action: OfAction, key: &Key) -> bool
    ensures { result ≡ is_left_out action (numbers key.now) }
{
    match action {
        OfAction::DecTtl => holds(key, Prerequisite::Ip) & (key.get(FieldId::NwTtl) <= 1),
        OfAction::PushVlan(_) => is_full(key),
        _ => false,
    }
}

/// Whether actions read and write a field as that of the outer tag's content.
fn is_tag_field(field: FieldId) -> bool
    ensures { result ≡ is_tag_field field }
{
    match field {
        FieldId::VlanTci => true,
        _ => false,
    }
}

/// The fields that say whether a packet is what a write needs (ovs-fields(7), "Prerequisites").
#[tactic(auto, unfolding(spec_xlate::specs::Needs::fields_needed))]
fn fields_needed(needs: Prerequisite) -> &'static [FieldId]
    ensures { result.now ≡ fields_needed needs }
{
    match needs {
        Prerequisite::Nothing => &[],
        Prerequisite::Ipv4 | Prerequisite::Ipv6 | Prerequisite::Ip | Prerequisite::Arp => {
            &[FieldId::DlType]
        }
        Prerequisite::Tcp | Prerequisite::Udp | Prerequisite::TcpOrUdp => {
            &[FieldId::DlType, FieldId::NwProto, FieldId::IpFrag]
        }
        Prerequisite::Icmp | Prerequisite::Icmp6 => &[FieldId::DlType, FieldId::NwProto],
        Prerequisite::Tag => &TAG_FIELDS,
    }
}

fn keep(actions: &mut Vec<OfAction>, kept: bool, action: OfAction)
    requires room { kept ≡ true → length actions.old.items < vec_capacity actions.old }
    ensures items { actions.new.items ≡ (if kept then actions.old.items ++ action ∷ [] else actions.old.items) }
    ensures capacity { vec_capacity actions.new ≡ vec_capacity actions.old }
{
    if kept {
        actions.push_reserved(action);
    }
}

/// The one number where a test holds, and else the other.
fn chosen(test: bool, number: u128, other: u128) -> u128
    ensures { result ≡ (if test then number else other) }
{
    if test { number } else { other }
}

/// A mask with metadata and the registers added.
#[tactic(auto, unfolding(crate::specs::Following::with_registers))]
fn with_registers(mask: &Mask) -> Mask
    ensures { bits result ≡ with_registers (bits mask.now) }
{
    let mut all = *mask;
    add_whole(&mut all, &REGISTERS);
    all
}

impl<'a> Path<'a> {
    ghost use Rattle.table_diff.specs.Following.{begun, is_own, are_own, are_known, is_slice_known, is_known_write, is_known, known_after, is_ttl_told, is_decided, dirty_after, with_action, looked, sent_bits};
    ghost use Rattle.table_diff.specs.Paths.{path_view};

    /// Before the first step, with no action. The only error is out of memory.
    pub(crate) fn begin(
        alloc: Global,
        ports: &'a [u16],
        mask: &Mask,
    ) -> Result<Path<'a>, AllocError>
        ensures { IfOk result (λ p. path_view p ≡ begun ports.now (bits mask.now)) }
    {
        let known = with_registers(mask);
        Ok(Path {
            ports,
            mask: *mask,
            known,
            touched: Mask::none(),
            actions: Vec::with_capacity(alloc, PATH_LIMIT)?,
            used: 0,
            dirty: false,
            fine: true,
        })
    }

    /// Whether a field is as the packet had it when it came in, and the same for all.
    fn is_own(&self, field: FieldId) -> bool
        ensures { result ≡ is_own (path_view self.now) field }
    {
        let mut whole = Mask::none();
        add_field(&mut whole, field);
        (self.touched.get(field) == 0) & covers(&self.mask, &whole)
    }

    /// Whether these fields are so.
    fn are_own(&self, fields: &[FieldId]) -> bool
        ensures { result ≡ are_own (path_view self.now) fields.now }
    {
        fields.iter().all(|field| self.is_own(*field))
    }

    /// Whether these bits of a field are known.
    fn are_known(&self, field: FieldId, bits: u128) -> bool
        requires { bits < 2 ^ width_of field }
        ensures { result ≡ are_known (path_view self.now) field bits }
    {
        let mut wanted = Mask::none();
        wanted.add(field, bits);
        covers(&self.known, &wanted)
    }

    /// Whether a slice is known that is none of a tag.
    fn is_slice_known(&self, key: &Key, slice: Slice) -> bool
        requires { IsTrue (is_sound_slice slice) }
        ensures { result ≡ is_slice_known (path_view self.now) slice }
    {
        let mut wanted = Mask::none();
        consult(&mut wanted, key, OfAction::OutputField(slice));
        !is_tag_field(named(slice.name).field) & covers(&self.known, &wanted)
    }

    /// Whether a write to a named field writes the same for all, and nothing but that field.
    fn is_known_write(&self, name: NamedField) -> bool
        ensures { result ≡ is_known_write (path_view self.now) name }
    {
        let at = named(name);
        !is_tag_field(at.field) & self.are_own(fields_needed(at.write_needs))
    }

    /// Whether what an action writes is the same for all.
    #[tactic(auto, unfolding(crate::specs::Following::is_known))]
    fn is_known(&self, action: OfAction) -> bool
        ensures { result ≡ is_known (path_view self.now) action }
    {
        match action {
            OfAction::Set { name, .. } => self.is_known_write(name),
            _ => false,
        }
    }

    /// The bits that are known after an action.
    fn known_after(&self, action: OfAction, key: &Key) -> Mask
        requires { IsTrue (is_sound action) }
        ensures { bits result ≡ known_after (path_view self.now) action (numbers key.now) }
    {
        if self.is_known(action) {
            let mut known = self.known;
            consult(&mut known, key, action);
            known
        } else {
            forgotten(action, &self.known)
        }
    }

    /// Whether it is the same for all whether the TTL has run out.
    fn is_ttl_told(&self, key: &Key) -> bool
        ensures { result ≡ is_ttl_told (path_view self.now) (numbers key.now) }
    {
        let high = key.get(FieldId::NwTtl) & self.known.get(FieldId::NwTtl) & HIGH_BITS;
        self.is_own(FieldId::NwTtl) | (high != 0)
    }

    /// Whether it is the same for all where an action sends, and whether it ends its list or the translation.
    #[tactic(auto, unfolding(crate::specs::Following::is_decided))]
    fn is_decided(&self, action: OfAction, key: &Key) -> bool
        requires { IsTrue (is_sound action) }
        ensures { result ≡ is_decided (path_view self.now) action (numbers key.now) }
    {
        match action {
            OfAction::Output(_) => self.is_own(FieldId::InPort),
            OfAction::OutputField(slice) => {
                self.is_own(FieldId::InPort) & self.is_slice_known(key, slice)
            }
            OfAction::InPort => self.is_own(FieldId::InPort),
            OfAction::All => self.is_own(FieldId::InPort),
            OfAction::Flood => self.is_own(FieldId::InPort),
            OfAction::Resubmit(_) => false,
            OfAction::Goto(_) => false,
            OfAction::Set { .. } => true,
            OfAction::Move { .. } => true,
            OfAction::DecTtl => {
                self.is_own(FieldId::DlType)
                    & (!holds(key, Prerequisite::Ip) | self.is_ttl_told(key))
            }
            OfAction::PushVlan(_) => self.are_known(FieldId::VlanTci2, u128::from(TAG_BIT)),
            OfAction::PopVlan => true,
            OfAction::SetVid(_) => true,
            OfAction::SetPcp(_) => true,
        }
    }

    /// Whether keys may differ from those of the frames after an action.
    #[tactic(auto, unfolding(crate::specs::Following::dirty_after))]
    fn dirty_after(&self, action: OfAction, key: &Key) -> bool
        ensures { result ≡ dirty_after (path_view self.now) action (numbers key.now) }
    {
        match action {
            OfAction::Output(port) => self.dirty & !is_other_port(self.ports, key, port),
            OfAction::OutputField(_) => self.dirty,
            OfAction::InPort => false,
            OfAction::All => self.dirty,
            OfAction::Flood => self.dirty,
            _ => true,
        }
    }

    /// Follows an action on a packet of a key.
    pub(crate) fn act(&mut self, action: OfAction, key: &Key)
        requires { IsTrue (is_sound action) }
        ensures { path_view self.new ≡ with_action (path_view self.old) action (numbers key.now) }
    {
        let used = self.used + cost(self.dirty, sends(self.ports, action, key));
        let room = (used <= ACTION_LIMIT) & (self.actions.len() < PATH_LIMIT);
        let decided = self.is_decided(action, key);
        let known = self.known_after(action, key);
        let dirty = self.dirty_after(action, key);
        add_written(&mut self.touched, action);
        self.known = known;
        self.dirty = dirty;
        self.fine = self.fine & (decided & room);
        self.used = chosen(room, used, self.used);
        keep(&mut self.actions, room & !is_left_out(action, key), action);
    }

    /// Notes whether a lookup was decided.
    pub(crate) fn look(&mut self, told: bool)
        ensures { path_view self.new ≡ looked (path_view self.old) told }
    {
        self.fine = self.fine & told;
    }

    /// The bits of keys that are the same for all.
    pub(crate) fn known(&self) -> &Mask
        ensures { bits result.now ≡ (path_view self.now).known }
    {
        &self.known
    }

    /// The bits of frames, as they were sent last, that are the same for all. Where keys may have changed since, none
    /// are told.
    fn sent(&self) -> Mask
        ensures { bits result ≡ sent_bits (path_view self.now) }
    {
        if self.dirty { Mask::none() } else { self.known }
    }

    /// The actions carried out, whether each step was decided, and the bits that are told of what was sent. It takes no
    /// memory.
    pub(crate) fn finish(self) -> (Vec<OfAction>, bool, Mask)
        ensures actions { result.0.items ≡ (path_view self.entry).actions }
        ensures fine { result.1 ≡ (path_view self.entry).fine }
        ensures sent { bits result.2 ≡ sent_bits (path_view self.entry) }
        ensures sound { AreSound result.0.items }
    {
        let told = self.sent();
        (self.actions, self.fine, told)
    }

    // ---- a way whose mask grows, of which nothing is told

    /// The bits on which all packets agree.
    pub(crate) fn mask(&self) -> &Mask {
        &self.mask
    }

    /// Has all packets agree on bits of a field.
    fn state(&mut self, field: FieldId, bits: u128)
        requires { bits < 2 ^ width_of field }
    {
        self.mask.add(field, bits);
        self.known.add(field, bits);
    }

    /// Has all packets agree on the bits that decide whether a match speaks of them.
    pub(crate) fn state_match(&mut self, key: &Key, matching: &Match) {
        let mut more = self.known;
        add_match(&mut more, key, matching);
        for field in all_fields() {
            self.mask
                .add(*field, more.get(*field) & !self.known.get(*field));
        }
        self.known = more;
    }

    /// Has all packets agree on the bits that decide what an action does, but for what it writes over.
    pub(crate) fn state_action(&mut self, key: &Key, action: OfAction)
        requires { IsTrue (is_sound action) }
    {
        match action {
            OfAction::OutputField(_) => {
                consult(&mut self.mask, key, action);
                consult(&mut self.known, key, action);
            }
            OfAction::PushVlan(_) => self.state(FieldId::VlanTci2, u128::from(TAG_BIT)),
            OfAction::DecTtl => {
                self.state(FieldId::DlType, low_bits(width(FieldId::DlType)));
                if holds(key, Prerequisite::Ip) {
                    self.state_ttl(key);
                }
            }
            _ => {}
        }
    }

    fn state_ttl(&mut self, key: &Key) {
        let ttl = key.get(FieldId::NwTtl);
        if ttl & self.known.get(FieldId::NwTtl) & HIGH_BITS != 0 {
            return;
        }
        if ttl > 1 {
            // The most significant bit that is set.
            self.state(FieldId::NwTtl, ttl & !(filled(ttl) >> 1));
            return;
        }
        self.state(FieldId::NwTtl, 0xff);
    }
}
