ghost use Rattle.std.specs.Prelude.{◌≡◌, ◌+◌, ◌≤◌, ◌<◌, ◌^◌, [], ◌∷◌, OnOk};
ghost use Rattle.rule_tables.specs.History.{newest, applied, bundled_by, no_bundles};

use ovs_fields::{FieldId, Key, Mask};
use rule_tables::{Actions, Edit, EditWord, Match, OfAction, VersionedRules};
use std::alloc::{AllocError, Global};
use std::process::Abort;

/// The priority of a rule that states none (ovs-ofctl(8)).
const DEFAULT_PRIORITY: u16 = 32768;

const IN_PORT_BITS: u128 = 0xffff;

const DL_DST_BITS: u128 = 0xffff_ffff_ffff;

const VLAN_TCI_BITS: u128 = 0xffff;

/// `in_port=1`
pub fn port_1() -> Match {
    let mut key = Key::zero();
    key.set(FieldId::InPort, 1);
    let mut mask = Mask::none();
    mask.add(FieldId::InPort, IN_PORT_BITS);
    Match { key, mask }
}

/// `in_port=1,dl_dst=00:00:00:00:00:02`
pub fn port_1_to_2() -> Match {
    let mut key = Key::zero();
    key.set(FieldId::InPort, 1);
    key.set(FieldId::DlDst, 2);
    let mut mask = Mask::none();
    mask.add(FieldId::InPort, IN_PORT_BITS);
    mask.add(FieldId::DlDst, DL_DST_BITS);
    Match { key, mask }
}

/// `vlan_tci=0x100a`
fn vlan_10() -> Match {
    let mut key = Key::zero();
    key.set(FieldId::VlanTci, 0x100a);
    let mut mask = Mask::none();
    mask.add(FieldId::VlanTci, VLAN_TCI_BITS);
    Match { key, mask }
}

/// An edit without a table, whose action is an output.
pub fn edit(
    alloc: Global,
    word: EditWord,
    cookie: Option<u64>,
    matching: Match,
    port: u16,
) -> Result<Edit, AllocError> {
    let actions = vec![in alloc; OfAction::Output(port)]?;
    Ok(Edit {
        word,
        table: None,
        priority: DEFAULT_PRIORITY,
        cookie,
        matching,
        actions: Actions::new(actions),
    })
}

/// Applies a bundle of one edit.
pub fn apply_one(alloc: Global, rules: &mut VersionedRules, edit: Edit) -> Result<u32, AllocError>
    requires { applied rules.old.edits + 1 < 2 ^ 32 }
    ensures { OnOk result (rules.new ≡ bundled_by (edit ∷ []) rules.old) }
{
    rules.apply(vec![in alloc; edit]?)
}

/// Two rules, of which the second is more specific; both modified; the first one deleted; the second one replaced.
fn make_five_versions(alloc: Global, rules: &mut VersionedRules) -> Result<(), AllocError>
    requires { rules.old ≡ no_bundles }
    ensures { OnOk result (newest rules.new ≡ 5) }
{
    apply_one(
        alloc,
        rules,
        edit(alloc, EditWord::Add, Some(7), port_1(), 2)?,
    )?;
    apply_one(
        alloc,
        rules,
        edit(alloc, EditWord::Add, None, port_1_to_2(), 3)?,
    )?;
    apply_one(
        alloc,
        rules,
        edit(alloc, EditWord::Modify, None, port_1(), 4)?,
    )?;
    apply_one(
        alloc,
        rules,
        edit(alloc, EditWord::DeleteStrict, None, port_1(), 0)?,
    )?;
    apply_one(
        alloc,
        rules,
        edit(alloc, EditWord::Add, None, port_1_to_2(), 5)?,
    )?;
    Ok(())
}

/// Asserts that a rule of a version is live, and has one action, an output.
fn expect_output(rt: &impl Abort, rules: &VersionedRules, version: u32, number: u32, port: u16)
    requires { version ≤ newest rules.now }
{
    assert!(rt; rules.live(version, number));
    assert!(rt; rules.actions(version, number) == [OfAction::Output(port)].as_slice());
}

/// Asserts that a rule of a version is live, and which cookie it has.
fn expect_cookie(rt: &impl Abort, rules: &VersionedRules, version: u32, number: u32, cookie: u64)
    requires { version ≤ newest rules.now }
{
    assert!(rt; rules.live(version, number));
    assert_eq!(rt; rules.cookie(version, number), cookie);
}

/// The versions in which both rules were added and modified.
fn both_rules_are_modified(rt: &impl Abort, alloc: Global, rules: &mut VersionedRules)
    requires { rules.old ≡ no_bundles }
{
    make_five_versions(alloc, rules).expect(rt, "ample memory");
    expect_output(rt, rules, 2, 1, 2);
    expect_output(rt, rules, 3, 1, 4);
    expect_cookie(rt, rules, 3, 1, 7);
    expect_output(rt, rules, 3, 2, 4);
}

#[test]
fn a_modify_gives_its_actions_to_both_rules_from_its_version_on(rt: HostRuntime) {
    let mut rules = VersionedRules::new(rt.alloc());
    both_rules_are_modified(&rt, rt.alloc(), &mut rules);
    drop(rules);
}

/// The versions in which one rule was deleted and the other one replaced.
fn one_rule_is_left(rt: &impl Abort, alloc: Global, rules: &mut VersionedRules)
    requires { rules.old ≡ no_bundles }
{
    make_five_versions(alloc, rules).expect(rt, "ample memory");
    assert!(rt; !rules.live(4, 1));
    assert!(rt; rules.live(4, 2));
    assert!(rt; !rules.live(5, 2));
    expect_output(rt, rules, 5, 5, 5);
    assert!(rt; rules.changes() == 7);
}

#[test]
fn the_last_version_has_the_last_rule_alone(rt: HostRuntime) {
    let mut rules = VersionedRules::new(rt.alloc());
    one_rule_is_left(&rt, rt.alloc(), &mut rules);
    drop(rules);
}

/// Asserts which rule wins for a key in table 0 of a version.
fn expect_winner(
    rt: &impl Abort,
    rules: &VersionedRules,
    version: u32,
    key: &Key,
    rule: Option<u32>,
)
    requires { version ≤ newest rules.now }
{
    assert_eq!(rt; rules.scan(version, 0, key), rule);
}

/// The rules as they were added, and where a packet that comes in by port 1 finds one.
fn rules_are_told_and_found(rt: &impl Abort, alloc: Global, rules: &mut VersionedRules)
    requires { rules.old ≡ no_bundles }
{
    make_five_versions(alloc, rules).expect(rt, "ample memory");
    assert!(rt; rules.rule(1).map(|rule| rule.cookie) == Some(7));
    assert!(rt; rules.rule(3).is_none());
    let mut key = Key::zero();
    key.set(FieldId::InPort, 1);
    expect_winner(rt, rules, 0, &key, None);
    expect_winner(rt, rules, 3, &key, Some(1));
    expect_winner(rt, rules, 4, &key, None);
}

#[test]
fn a_rule_is_told_as_it_was_added_and_found_where_it_matches(rt: HostRuntime) {
    let mut rules = VersionedRules::new(rt.alloc());
    rules_are_told_and_found(&rt, rt.alloc(), &mut rules);
    drop(rules);
}

/// A rule for the packets whose outer tag is of VLAN 10, and what it matches of packets with two tags.
fn outer_tags_are_matched(rt: &impl Abort, alloc: Global, rules: &mut VersionedRules)
    requires { rules.old ≡ no_bundles }
{
    apply_one(
        alloc,
        rules,
        edit(alloc, EditWord::Add, None, vlan_10(), 2).expect(rt, "ample memory"),
    )
    .expect(rt, "ample memory");
    let mut key = Key::zero();
    key.set(FieldId::VlanTpid, 0x88a8);
    key.set(FieldId::VlanTci, 0x1014);
    key.set(FieldId::VlanTpid2, 0x8100);
    key.set(FieldId::VlanTci2, 0x100a);
    expect_winner(rt, rules, 1, &key, None);
    key.set(FieldId::VlanTci, 0x100a);
    key.set(FieldId::VlanTci2, 0x1014);
    expect_winner(rt, rules, 1, &key, Some(1));
}

#[test]
fn of_two_tags_the_outer_one_is_matched(rt: HostRuntime) {
    let mut rules = VersionedRules::new(rt.alloc());
    outer_tags_are_matched(&rt, rt.alloc(), &mut rules);
    drop(rules);
}

/// A rule that is modified strictly, an edit that fits nothing, and a delete of all rules.
fn strict_words_are_applied(rt: &impl Abort, alloc: Global, rules: &mut VersionedRules)
    requires { rules.old ≡ no_bundles }
{
    apply_one(
        alloc,
        rules,
        edit(alloc, EditWord::Add, Some(7), port_1(), 2).expect(rt, "ample memory"),
    )
    .expect(rt, "ample memory");
    apply_one(
        alloc,
        rules,
        edit(alloc, EditWord::ModifyStrict, Some(9), port_1(), 3).expect(rt, "ample memory"),
    )
    .expect(rt, "ample memory");
    apply_one(
        alloc,
        rules,
        edit(alloc, EditWord::ModifyStrict, None, port_1_to_2(), 4).expect(rt, "ample memory"),
    )
    .expect(rt, "ample memory");
    apply_one(
        alloc,
        rules,
        edit(alloc, EditWord::Delete, None, Match::any(), 0).expect(rt, "ample memory"),
    )
    .expect(rt, "ample memory");
    expect_cookie(rt, rules, 1, 1, 7);
    expect_cookie(rt, rules, 3, 1, 9);
    expect_output(rt, rules, 3, 1, 3);
    assert!(rt; !rules.live(4, 1));
    assert!(rt; rules.changes() == 3);
}

#[test]
fn a_strict_modify_gives_its_cookie_to_its_rule_and_none_where_it_fits_no_rule(rt: HostRuntime) {
    let mut rules = VersionedRules::new(rt.alloc());
    strict_words_are_applied(&rt, rt.alloc(), &mut rules);
    drop(rules);
}
