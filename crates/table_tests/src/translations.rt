ghost use Rattle.std.specs.Prelude.{◌≡◌, IfOk, OnOk};
ghost use Rattle.spec_actions.specs.Sound.{AreSound};
ghost use Rattle.spec_tables.specs.declared.edit_word.EditWord.TheVariants.{Add};
ghost use Rattle.rule_tables.specs.History.{newest, rules_of, no_bundles};
ghost use Rattle.pipe_model.specs.Runnable.{AreRunnable};

use crate::rules::apply_one;
use dp_actions::{ActionList, DpAction, Visits};
use ovs_fields::{FieldId, Key};
use pipe_model::{Plain, SpareLists, Translating};
use rule_tables::{Actions, Edit, EditWord, Match, OfAction, VersionedRules};
use std::alloc::{AllocError, Global};
use std::process::Abort;
use xlate_pipeline::plain;

/// The ports; packets come in by the first one.
static PORTS: [u16; 2] = [1, 2];

/// An edit that adds a rule for every packet.
fn adding(alloc: Global, table: u8, actions: &[OfAction]) -> Result<Edit, AllocError>
    requires { AreSound actions.now }
    ensures word { IfOk result (λ e. e.word ≡ Add) }
    ensures sound { IfOk result (λ e. AreSound e.actions) }
{
    let actions = Vec::from_slice(alloc, actions)?;
    Ok(Edit {
        word: EditWord::Add,
        table: Some(table),
        priority: 0,
        cookie: None,
        matching: Match::any(),
        actions: Actions::new(actions),
    })
}

/// A rule for every packet in each of the tables 0 and 1.
fn add_two_tables(
    alloc: Global,
    rules: &mut VersionedRules,
    first: &[OfAction],
    second: &[OfAction],
) -> Result<(), AllocError>
    requires none { rules.old ≡ no_bundles }
    requires first { AreSound first.now }
    requires second { AreSound second.now }
    ensures version { OnOk result (newest rules.new ≡ 2) }
    ensures runnable { OnOk result (AreRunnable (rules_of rules.new 2)) }
{
    apply_one(alloc, rules, adding(alloc, 0, first)?)?;
    apply_one(alloc, rules, adding(alloc, 1, second)?)?;
    Ok(())
}

/// What is made of a packet, where a rule of table 0 and one of table 1 have these actions.
fn translated(
    alloc: Global,
    rules: &mut VersionedRules,
    first: &[OfAction],
    second: &[OfAction],
    key: &Key,
) -> Result<Plain, AllocError>
    requires none { rules.old ≡ no_bundles }
    requires first { AreSound first.now }
    requires second { AreSound second.now }
{
    add_two_tables(alloc, rules, first, second)?;
    plain(alloc, rules, 2, &PORTS, key)
}

/// The same, with the rules made and dropped.
fn made_of(
    alloc: Global,
    first: &[OfAction],
    second: &[OfAction],
    key: &Key,
) -> Result<Plain, AllocError>
    requires first { AreSound first.now }
    requires second { AreSound second.now }
{
    let mut rules = VersionedRules::new(alloc);
    let made = translated(alloc, &mut rules, first, second, key);
    drop(rules);
    made
}

/// Asserts how many datapath actions a translation has, and how many visits.
fn expect_lengths(rt: &impl Abort, made: &Plain, actions: usize, visits: usize) {
    assert_eq!(rt;
        (made.actions.len(), made.visits.as_slice().len()),
        (actions, visits)
    );
}

/// The key of an IPv4 packet with this TTL.
fn ipv4_key(ttl: u8) -> Key {
    let mut key = Key::zero();
    key.set(FieldId::InPort, 1);
    key.set(FieldId::DlType, 0x0800);
    key.set(FieldId::NwTtl, u128::from(ttl));
    key
}

// Table 1 leads to itself as long as the TTL can be lowered, so a packet with a TTL of n makes a lookup n deep.
#[test]
fn lookups_are_made_64_deep(rt: HostRuntime) {
    let first = [OfAction::Resubmit(1), OfAction::Output(2)];
    let second = [OfAction::DecTtl, OfAction::Resubmit(1)];
    let deep = made_of(rt.alloc(), &first, &second, &ipv4_key(64)).expect(&rt, "ample memory");
    // A set of the TTL and an output.
    expect_lengths(&rt, &deep, 2, 65);
    drop(deep);
    let deeper = made_of(rt.alloc(), &first, &second, &ipv4_key(65)).expect(&rt, "ample memory");
    expect_lengths(&rt, &deeper, 0, 65);
}

// One lookup, 7 that it leads to, and 72 that each of these leads to: 512.
#[test]
fn a_translation_makes_512_lookups(rt: HostRuntime) {
    let second = [OfAction::Resubmit(2); 72];
    let again = OfAction::Resubmit(1);
    let most = [
        again,
        again,
        again,
        again,
        again,
        again,
        again,
        OfAction::Output(2),
    ];
    let done = made_of(rt.alloc(), &most, &second, &Key::zero()).expect(&rt, "ample memory");
    expect_lengths(&rt, &done, 1, 8);
    drop(done);
    let more = [
        OfAction::Resubmit(2),
        again,
        again,
        again,
        again,
        again,
        again,
        again,
        OfAction::Output(2),
    ];
    let stopped = made_of(rt.alloc(), &more, &second, &Key::zero()).expect(&rt, "ample memory");
    expect_lengths(&rt, &stopped, 0, 8);
}

#[test]
fn a_translation_emits_128_actions(rt: HostRuntime) {
    let most = made_of(rt.alloc(), &[OfAction::Output(2); 128], &[], &Key::zero()).expect(
        &rt,
        "ample memory",
    );
    expect_lengths(&rt, &most, 128, 1);
    drop(most);
    let stopped = made_of(rt.alloc(), &[OfAction::Output(2); 129], &[], &Key::zero()).expect(
        &rt,
        "ample memory",
    );
    expect_lengths(&rt, &stopped, 0, 1);
    assert!(rt; stopped.visits.as_slice() == [1].as_slice());
}

/// Sends a packet that visits a rule to all these ports but the first one.
fn send(state: &mut Translating, ports: &[u16]) -> Result<(), AllocError> {
    state.visit(7)?;
    state.step(ports, OfAction::All)
}

/// What comes of that.
fn sent_to(lists: SpareLists, ports: &[u16]) -> Result<Plain, AllocError> {
    let mut state = Translating::start(lists, &ipv4_key(64));
    let sent = send(&mut state, ports);
    let made = state.finish();
    sent?;
    Ok(made)
}

/// Asserts that a packet visited the rule, and is sent to port 2.
fn expect_sent_to_2(rt: &impl Abort, made: &Plain) {
    assert!(rt; made.actions.as_slice() == [DpAction::Output(2)].as_slice());
    assert_eq!(rt; made.visits.as_slice(), [7].as_slice());
}

/// The lists for another translation, and for how many actions and visits they have room.
fn room_of(made: Plain) -> (SpareLists, (usize, usize)) {
    let actions = made.actions.into_vec();
    let visits = made.visits.into_vec();
    let room = (actions.capacity(), visits.capacity());
    let made = Plain {
        actions: ActionList::new(actions),
        visits: Visits::new(visits),
    };
    (made.into_spare(), room)
}

#[test]
fn lists_that_are_handed_in_are_used_again(rt: HostRuntime) {
    let many = sent_to(SpareLists::new(rt.alloc()), &[9, 8, 7, 6, 5, 4, 3, 2, 1]).expect(
        &rt,
        "ample memory",
    );
    expect_lengths(&rt, &many, 8, 1);
    let (many, room) = room_of(many);
    let few = sent_to(many, &PORTS).expect(&rt, "ample memory");
    expect_sent_to_2(&rt, &few);
    let (few, room_after) = room_of(few);
    drop(few);
    assert!(rt; room_after == room);
    let fresh = sent_to(SpareLists::new(rt.alloc()), &PORTS).expect(&rt, "ample memory");
    expect_sent_to_2(&rt, &fresh);
}

// Ports in any order, one of them twice and the first one left out.
#[test]
fn a_flood_goes_out_in_rising_order(rt: HostRuntime) {
    let sent = sent_to(SpareLists::new(rt.alloc()), &[65535, 2, 1, 3, 0, 2]).expect(
        &rt,
        "ample memory",
    );
    let rising = [0, 2, 2, 3, 65535].map(DpAction::Output);
    assert!(rt; sent.actions.as_slice() == rising.as_slice());
    drop(sent);
    let nowhere = sent_to(SpareLists::new(rt.alloc()), &[1, 1]).expect(&rt, "ample memory");
    assert!(rt; nowhere.actions.len() == 0);
}

/// The type of a customer's tag, and of a service provider's (IEEE 802.1Q, table 9-1).
const CUSTOMER: u16 = 0x8100;

const SERVICE: u16 = 0x88a8;

/// The key of a packet with a customer's tag of VLAN 10.
fn one_tag() -> Key {
    let mut key = Key::zero();
    key.set(FieldId::InPort, 1);
    key.set(FieldId::VlanTpid, u128::from(CUSTOMER));
    key.set(FieldId::VlanTci, 0x100a);
    key
}

/// The key of a packet with a service provider's tag of VLAN 20, outside of a customer's of VLAN 10.
fn two_tags() -> Key {
    let mut key = Key::zero();
    key.set(FieldId::InPort, 1);
    key.set(FieldId::VlanTpid, u128::from(SERVICE));
    key.set(FieldId::VlanTci, 0x1014);
    key.set(FieldId::VlanTpid2, u128::from(CUSTOMER));
    key.set(FieldId::VlanTci2, 0x100a);
    key
}

/// Asserts what is done with a packet of this key by these actions.
fn expect_done(
    rt: &impl Abort,
    alloc: Global,
    actions: &[OfAction],
    key: &Key,
    done: &[DpAction],
) -> Result<(), AllocError>
    requires { AreSound actions.now }
{
    let made = made_of(alloc, actions, &[], key)?;
    assert!(rt; made.actions.as_slice() == done);
    Ok(())
}

#[test]
fn a_tag_is_pushed_outside_of_another(rt: HostRuntime) {
    let actions = [
        OfAction::PushVlan(SERVICE),
        OfAction::SetVid(20),
        OfAction::Output(2),
    ];
    let pushed = DpAction::PushVlan {
        tpid: SERVICE,
        tci: 0x1014,
    };
    let done = [pushed, DpAction::Output(2)];
    expect_done(&rt, rt.alloc(), &actions, &one_tag(), &done).expect(&rt, "ample memory");
}

#[test]
fn a_third_tag_ends_a_translation(rt: HostRuntime) {
    let actions = [
        OfAction::Output(2),
        OfAction::PushVlan(CUSTOMER),
        OfAction::Output(2),
    ];
    expect_done(&rt, rt.alloc(), &actions, &two_tags(), &[]).expect(&rt, "ample memory");
}

#[test]
fn a_pop_takes_the_outer_tag(rt: HostRuntime) {
    let actions = [
        OfAction::PopVlan,
        OfAction::Output(2),
        OfAction::PopVlan,
        OfAction::Output(2),
    ];
    let out = DpAction::Output(2);
    let done = [DpAction::PopVlan, out, DpAction::PopVlan, out];
    expect_done(&rt, rt.alloc(), &actions, &two_tags(), &done).expect(&rt, "ample memory");
}

// The identifier that is written is that of the inner tag, which keeps its type.
#[test]
fn after_a_pop_the_inner_tag_is_written(rt: HostRuntime) {
    let actions = [OfAction::PopVlan, OfAction::SetVid(30), OfAction::Output(2)];
    let pushed = DpAction::PushVlan {
        tpid: CUSTOMER,
        tci: 0x101e,
    };
    let pop = DpAction::PopVlan;
    let done = [pop, pop, pushed, DpAction::Output(2)];
    expect_done(&rt, rt.alloc(), &actions, &two_tags(), &done).expect(&rt, "ample memory");
}
