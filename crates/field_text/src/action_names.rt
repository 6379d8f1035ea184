ghost use Rattle.std.specs.Prelude.{◌≡◌};
ghost use Rattle.spec_flow_text.specs.Names as names;

use crate::fields::is_field_left_out;
use crate::words::{is_one_of, meaning_of};
use spec_actions::NamedField;
use spec_flow_text::ActionName;

const ACTIONS: [(&str, ActionName); 22] = [
    ("output", ActionName::Output),
    ("drop", ActionName::Drop),
    ("resubmit", ActionName::Resubmit),
    ("goto_table", ActionName::GotoTable),
    ("load", ActionName::Load),
    ("set_field", ActionName::SetField),
    ("move", ActionName::Move),
    ("mod_dl_src", ActionName::Mod(NamedField::DlSrc)),
    ("mod_dl_dst", ActionName::Mod(NamedField::DlDst)),
    ("mod_nw_src", ActionName::Mod(NamedField::NwSrc)),
    ("mod_nw_dst", ActionName::Mod(NamedField::NwDst)),
    ("mod_nw_tos", ActionName::Mod(NamedField::NwTos)),
    ("mod_nw_ecn", ActionName::Mod(NamedField::NwEcn)),
    ("mod_nw_ttl", ActionName::Mod(NamedField::NwTtl)),
    ("mod_tp_src", ActionName::Mod(NamedField::TpSrc)),
    ("mod_tp_dst", ActionName::Mod(NamedField::TpDst)),
    ("mod_vlan_vid", ActionName::ModVlanVid),
    ("mod_vlan_pcp", ActionName::ModVlanPcp),
    ("dec_ttl", ActionName::DecTtl),
    ("push_vlan", ActionName::PushVlan),
    ("strip_vlan", ActionName::PopVlan),
    ("pop_vlan", ActionName::PopVlan),
];

const RESERVED_PORTS: [(&str, ActionName); 3] = [
    ("in_port", ActionName::InPort),
    ("all", ActionName::All),
    ("flood", ActionName::Flood),
];

const RESERVED_PORTS_IN_UPPER_CASE: [(&str, ActionName); 3] = [
    ("IN_PORT", ActionName::InPort),
    ("ALL", ActionName::All),
    ("FLOOD", ActionName::Flood),
];

/// The reserved port that a name in lower or in upper case means.
#[tactic(auto, unfolding(spec_flow_text::specs::Names::reserved_port_named))]
pub fn reserved_port_named(name: &[u8]) -> Option<ActionName>
    ensures { result ≡ names.reserved_port_named name.now }
{
    if let Some(port) = meaning_of(&RESERVED_PORTS, name) {
        return Some(port);
    }
    meaning_of(&RESERVED_PORTS_IN_UPPER_CASE, name)
}

// The actions that are known and left out.
const ACTIONS_LEFT_OUT: [&str; 31] = [
    "normal",
    "learn",
    "ct",
    "ct_clear",
    "nat",
    "group",
    "meter",
    "controller",
    "local",
    "enqueue",
    "conjunction",
    "clone",
    "sample",
    "note",
    "push",
    "pop",
    "write_actions",
    "clear_actions",
    "write_metadata",
    "bundle",
    "bundle_load",
    "multipath",
    "exit",
    "fin_timeout",
    "set_queue",
    "pop_queue",
    "set_tunnel",
    "set_vlan_vid",
    "set_vlan_pcp",
    "push_mpls",
    "pop_mpls",
];

// Their names in upper case.
const ACTIONS_LEFT_OUT_IN_UPPER_CASE: [&str; 31] = [
    "NORMAL",
    "LEARN",
    "CT",
    "CT_CLEAR",
    "NAT",
    "GROUP",
    "METER",
    "CONTROLLER",
    "LOCAL",
    "ENQUEUE",
    "CONJUNCTION",
    "CLONE",
    "SAMPLE",
    "NOTE",
    "PUSH",
    "POP",
    "WRITE_ACTIONS",
    "CLEAR_ACTIONS",
    "WRITE_METADATA",
    "BUNDLE",
    "BUNDLE_LOAD",
    "MULTIPATH",
    "EXIT",
    "FIN_TIMEOUT",
    "SET_QUEUE",
    "POP_QUEUE",
    "SET_TUNNEL",
    "SET_VLAN_VID",
    "SET_VLAN_PCP",
    "PUSH_MPLS",
    "POP_MPLS",
];

#[tactic(auto, unfolding(spec_flow_text::specs::Names::is_action_left_out))]
fn is_action_left_out(name: &[u8]) -> bool
    ensures { result ≡ names.is_action_left_out name.now }
{
    is_one_of(&ACTIONS_LEFT_OUT, name) || is_one_of(&ACTIONS_LEFT_OUT_IN_UPPER_CASE, name)
}

/// Whether a text begins with a digit.
pub fn begins_with_digit(text: &[u8]) -> bool
    ensures { result ≡ names.begins_with_digit text.now }
{
    text.first().is_some_and(|c| c.is_ascii_digit())
}

// The action that a name in the table means.
fn listed_action(name: &[u8]) -> Option<ActionName>
    ensures { result ≡ names.meaning_of names.actions_by_name name.now }
{
    meaning_of(&ACTIONS, name)
}

/// What the name of an item of an action list means.
#[tactic(auto, unfolding(spec_flow_text::specs::Names::action_named))]
pub fn action_named(name: &[u8]) -> Option<ActionName>
    ensures { result ≡ names.action_named name.now }
{
    if begins_with_digit(name) {
        return Some(ActionName::Port);
    }
    if let Some(port) = reserved_port_named(name) {
        return Some(port);
    }
    if let Some(action) = listed_action(name) {
        return Some(action);
    }
    if is_action_left_out(name) {
        Some(ActionName::Unsupported)
    } else {
        None
    }
}

/// Whether a name, where a field belongs, is known and left out.
pub fn is_left_out_as_field(name: &[u8]) -> bool
    ensures { result ≡ names.is_left_out_as_field name.now }
{
    is_field_left_out(name) || is_action_left_out(name)
}
