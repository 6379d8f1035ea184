use edit_script::{FileFault, MOST_BYTES, ReadEdits, Script, read_edit, read_script};
use field_text::TextFault;
use ovs_fields::FieldId;
use rule_tables::{EditWord, OfAction, Rule, SyncPoint, VersionedRules};
use std::alloc::Global;

/// The script of these few bytes and the rules that its edits make, if they are read and change few rules.
fn read(alloc: Global, bytes: &'static [u8]) -> Option<(Script, VersionedRules)> {
    if bytes.len() > MOST_BYTES {
        return None;
    }
    let ReadEdits { script, rules } = read_script(alloc, bytes).ok()?;
    Some((script, rules?))
}

#[test]
fn a_script_has_edits_and_sync_points(rt: HostRuntime) {
    let bytes =
        b"sync 0\n# all of it\nadd priority=5,tcp,actions=2,output:3 # 4\n \t\r\n\tsync\t2.5 \ndelete_strict table=3\nactions=drop";
    let (script, rules) = read(rt.alloc(), bytes).expect(&rt, "the edits are read");
    assert!(rt; script.edits.len() == 3);
    assert!(rt; script.bundles.as_slice() == [1, 2, 3].as_slice());
    let syncs = [
        SyncPoint { time: 0, after: 0 },
        SyncPoint {
            time: 2_500_000_000,
            after: 1,
        },
    ];
    assert!(rt; script.syncs.as_slice() == syncs.as_slice());
    let protocol = |rule: &Rule| rule.matching.key.get(FieldId::NwProto);
    assert!(rt; rules.rule(1).map(|rule| rule.priority) == Some(5));
    assert!(rt; rules.rule(1).map(protocol) == Some(6));
    assert!(rt; rules.rule(2).is_none());
    assert!(rt; rules.rule(3).map(|rule| rule.priority) == Some(32768));
}

#[test]
fn the_edit_of_a_line_is_read(rt: HostRuntime) {
    let edit = read_edit(rt.alloc(), b"tcp,actions=2,output:3")
        .ok()
        .expect(&rt, "it is read");
    assert!(rt; edit.word == EditWord::Add);
    let outputs = [OfAction::Output(2), OfAction::Output(3)];
    assert!(rt; edit.actions.as_slice() == outputs.as_slice());
    let edit = read_edit(rt.alloc(), b"delete_strict table=3")
        .ok()
        .expect(&rt, "it is read");
    assert!(rt; edit.word == EditWord::DeleteStrict);
    assert!(rt; edit.table == Some(3));
}

#[test]
fn edits_between_begin_and_commit_are_one_bundle(rt: HostRuntime) {
    let bytes =
        b"actions=1\n begin # two edits\ndelete\nactions=2\ncommit\nsync 1\nbegin\ncommit\nactions=3\n";
    let (script, rules) = read(rt.alloc(), bytes).expect(&rt, "the edits are read");
    assert!(rt; script.edits.len() == 4);
    assert!(rt; script.bundles.as_slice() == [1, 3, 4].as_slice());
    let sync = SyncPoint {
        time: 1_000_000_000,
        after: 2,
    };
    assert!(rt; script.syncs.as_slice() == [sync].as_slice());
    assert!(rt; rules.version() == 3);
    assert!(rt; rules.changes() == 5);
}

fn fault_of(read: Result<ReadEdits, FileFault>) -> Option<FileFault> {
    read.err()
}

#[test]
fn a_fault_has_its_line_and_column(rt: HostRuntime) {
    let list_of_a_delete = read_script(rt.alloc(), b"actions=2\ndelete in_port=1,actions=2\n");
    assert!(rt;
        fault_of(list_of_a_delete)
            == Some(FileFault::Line {
                line: 2,
                why: TextFault::Syntax { col: 18 }
            })
    );
    let late_time = read_script(rt.alloc(), b"\nsync 4294967296\n");
    assert!(rt;
        fault_of(late_time)
            == Some(FileFault::Line {
                line: 2,
                why: TextFault::BadValue { col: 6 }
            })
    );
    let falling_time = read_script(rt.alloc(), b"sync 2\nsync 1.999\n");
    assert!(rt; fault_of(falling_time) == Some(FileFault::SyncOrder { line: 2 }));
    let left_open = read_script(rt.alloc(), b"actions=1\n  begin\nactions=2\n");
    assert!(rt;
        fault_of(left_open)
            == Some(FileFault::Line {
                line: 2,
                why: TextFault::Syntax { col: 3 }
            })
    );
}
