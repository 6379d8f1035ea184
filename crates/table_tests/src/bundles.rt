//! Bundles of edits, applied to the store, and the tables of its last version.
ghost use Rattle.std.specs.Prelude.{◌≡◌};
ghost use Rattle.rule_tables.specs.History.{no_bundles};

use crate::rules::{apply_one, edit, port_1, port_1_to_2};
use ovs_fields::{FieldId, Key, Mask};
use rule_tables::{EditWord, VersionedRules};
use std::alloc::{AllocError, Global};
use std::process::Abort;
use tuple_classifier::Tables;

/// The rule that wins in table 0 of the last version, for a packet that comes in at port 1 and goes to 00:00:00:00:00:02.
fn winner(alloc: Global, rules: &VersionedRules) -> Result<Option<u32>, AllocError> {
    let mut key = Key::zero();
    key.set(FieldId::InPort, 1);
    key.set(FieldId::DlDst, 2);
    let mut consulted = Mask::none();
    let tables = Tables::last(alloc, rules)?;
    let rule = tables.look(0, &key, &mut consulted);
    drop(tables);
    Ok(rule)
}

/// A rule, and a bundle that puts another in its place.
fn a_rule_is_replaced(rt: &impl Abort, alloc: Global, rules: &mut VersionedRules)
    requires { rules.old ≡ no_bundles }
{
    apply_one(
        alloc,
        rules,
        edit(alloc, EditWord::Add, None, port_1(), 2).expect(rt, "ample memory"),
    )
    .expect(rt, "ample memory");
    assert!(rt; winner(alloc, rules).expect(rt, "ample memory") == Some(1));
    let bundle = vec![in alloc;
        edit(alloc, EditWord::Delete, None, port_1(), 0).expect(rt, "ample memory"),
        edit(alloc, EditWord::Add, None, port_1(), 3).expect(rt, "ample memory"),
    ]
    .expect(rt, "ample memory");
    assert!(rt; rules.apply(bundle).expect(rt, "ample memory") == 2);
    assert!(rt; winner(alloc, rules).expect(rt, "ample memory") == Some(3));
}

#[test]
fn a_bundle_replaces_a_rule_in_one_version(rt: HostRuntime) {
    let mut rules = VersionedRules::new(rt.alloc());
    a_rule_is_replaced(&rt, rt.alloc(), &mut rules);
    drop(rules);
}

/// A rule, and a bundle that adds a more specific one and deletes it.
fn another_rule_comes_and_goes(rt: &impl Abort, alloc: Global, rules: &mut VersionedRules)
    requires { rules.old ≡ no_bundles }
{
    apply_one(
        alloc,
        rules,
        edit(alloc, EditWord::Add, None, port_1(), 2).expect(rt, "ample memory"),
    )
    .expect(rt, "ample memory");
    let bundle = vec![in alloc;
        edit(alloc, EditWord::Add, None, port_1_to_2(), 3).expect(rt, "ample memory"),
        edit(alloc, EditWord::DeleteStrict, None, port_1_to_2(), 0).expect(rt, "ample memory"),
    ]
    .expect(rt, "ample memory");
    assert!(rt; rules.apply(bundle).expect(rt, "ample memory") == 2);
    assert!(rt; winner(alloc, rules).expect(rt, "ample memory") == Some(1));
}

#[test]
fn a_rule_that_comes_and_goes_in_a_bundle_leaves_what_was_there(rt: HostRuntime) {
    let mut rules = VersionedRules::new(rt.alloc());
    another_rule_comes_and_goes(&rt, rt.alloc(), &mut rules);
    drop(rules);
}
