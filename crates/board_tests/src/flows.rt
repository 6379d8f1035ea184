//! Edits of the rows, by names that say what they match.
ghost use Rattle.std.specs.Prelude.{◌≡◌, IsTrue, IfOk, length};
ghost use Rattle.std.specs.List.{list_all};
ghost use Rattle.spec_tables.specs.Edits.{has_sound_actions};

use ovs_fields::{FieldId, Key, Mask, masked};
use rule_tables::{Actions, Edit, EditWord, Match, OfAction};
use std::alloc::{AllocError, Global};

/// The priority of a rule that states none (ovs-ofctl(8)).
const DEFAULT_PRIORITY: u16 = 32768;

const IN_PORT_BITS: u128 = 0xffff;

const ADDRESS_BITS: u128 = 0xffff_ffff_ffff;

/// An edit that adds or deletes a rule, and what it states.
#[derive(Clone, Copy)]
pub struct Flow {
    pub word: EditWord,
    pub priority: u16,
    pub in_port: Option<u16>,
    /// The Ethernet destination, below 256.
    pub dl_dst: Option<u8>,
    /// The Ethernet source, below 256.
    pub dl_src: Option<u8>,
    /// The port to which the rule sends.
    pub output: u16,
}

/// `in_port=1,actions=2`
pub const PORT_1: Flow = Flow {
    word: EditWord::Add,
    priority: DEFAULT_PRIORITY,
    in_port: Some(1),
    dl_dst: None,
    dl_src: None,
    output: 2,
};

/// `in_port=1,dl_dst=00:00:00:00:00:02,actions=2`
pub const PORT_1_TO_2: Flow = Flow {
    word: EditWord::Add,
    priority: DEFAULT_PRIORITY,
    in_port: Some(1),
    dl_dst: Some(2),
    dl_src: None,
    output: 2,
};

/// `priority=5,in_port=1,actions=2`
pub const EQUAL_PORT_1: Flow = Flow {
    word: EditWord::Add,
    priority: 5,
    in_port: Some(1),
    dl_dst: None,
    dl_src: None,
    output: 2,
};

/// `priority=5,dl_dst=00:00:00:00:00:02,actions=3`
pub const EQUAL_TO_2: Flow = Flow {
    word: EditWord::Add,
    priority: 5,
    in_port: None,
    dl_dst: Some(2),
    dl_src: None,
    output: 3,
};

/// `delete_strict priority=5,in_port=1`
pub const DELETE_EQUAL_PORT_1: Flow = Flow {
    word: EditWord::DeleteStrict,
    priority: 5,
    in_port: Some(1),
    dl_dst: None,
    dl_src: None,
    output: 0,
};

/// `priority=1,actions=2`
pub const LOW_TO_ANY: Flow = Flow {
    word: EditWord::Add,
    priority: 1,
    in_port: None,
    dl_dst: None,
    dl_src: None,
    output: 2,
};

/// `priority=1,dl_dst=00:00:00:00:00:09,actions=3`
pub const LOW_TO_9: Flow = Flow {
    word: EditWord::Add,
    priority: 1,
    in_port: None,
    dl_dst: Some(9),
    dl_src: None,
    output: 3,
};

/// `priority=10,dl_dst=00:00:00:00:00:09,actions=3`
pub const HIGH_TO_9: Flow = Flow {
    word: EditWord::Add,
    priority: 10,
    in_port: None,
    dl_dst: Some(9),
    dl_src: None,
    output: 3,
};

/// `priority=1,dl_src=00:00:00:00:00:01,actions=2`
pub const LOW_FROM_1: Flow = Flow {
    word: EditWord::Add,
    priority: 1,
    in_port: None,
    dl_dst: None,
    dl_src: Some(1),
    output: 2,
};

/// `delete_strict priority=10,dl_dst=00:00:00:00:00:09`
pub const DELETE_HIGH_TO_9: Flow = Flow {
    word: EditWord::DeleteStrict,
    priority: 10,
    in_port: None,
    dl_dst: Some(9),
    dl_src: None,
    output: 0,
};

/// The match of the packets of an ingress port and Ethernet addresses, where these are given.
fn matching(in_port: Option<u16>, dl_dst: Option<u8>, dl_src: Option<u8>) -> Match {
    let mut key = Key::zero();
    let mut mask = Mask::none();
    if let Some(port) = in_port {
        key.set(FieldId::InPort, u128::from(port));
        mask.add(FieldId::InPort, IN_PORT_BITS);
    }
    if let Some(address) = dl_dst {
        key.set(FieldId::DlDst, u128::from(address));
        mask.add(FieldId::DlDst, ADDRESS_BITS);
    }
    if let Some(address) = dl_src {
        key.set(FieldId::DlSrc, u128::from(address));
        mask.add(FieldId::DlSrc, ADDRESS_BITS);
    }
    Match {
        key: masked(&key, &mask),
        mask,
    }
}

fn edit_of(alloc: Global, flow: &Flow) -> Result<Edit, AllocError>
    ensures { IfOk result (λ e. IsTrue (has_sound_actions e)) }
{
    let actions = vec![in alloc; OfAction::Output(flow.output)]?;
    Ok(Edit {
        word: flow.word,
        table: None,
        priority: flow.priority,
        cookie: None,
        matching: matching(flow.in_port, flow.dl_dst, flow.dl_src),
        actions: Actions::new(actions),
    })
}

pub fn edits_of(alloc: Global, flows: &[Flow]) -> Result<Vec<Edit>, AllocError>
    ensures sound { IfOk result (λ edits. IsTrue (list_all has_sound_actions edits.items)) }
    ensures each { IfOk result (λ edits. length edits.items ≡ length flows.now) }
{
    let mut edits = Vec::new(alloc);
    'flows: for flow in flows {
        edits.push(edit_of(alloc, flow)?)?;
    }
    Ok(edits)
}
