//! An editor and seers, in turn.
ghost use Rattle.std.specs.Prelude.{◌≡◌, IsTrue};
ghost use Rattle.std.specs.List.{list_all};
ghost use Rattle.spec_tables.specs.Edits.{has_sound_actions};

use crate::calls::{enters, publishes};
use crate::literal_run::LiteralRun;
use run_case::{Case, RunData};
use run_tables::ClassifierTables;
use std::alloc::Global;
use std::marker::Brand;
use std::process::Abort;
use std::sync::Wait;
use std::test::*;
use table_publish::{PublishFault, publish};
use table_versions::RunTables;

const SEERS: usize = 2;

#[test]
fn a_guard_keeps_its_version_and_the_next_has_the_newest(rt: HostRuntime) -> Result<(), Fail> {
    let alloc = rt.alloc();
    let literal = LiteralRun::two_versions(alloc)?;
    in_run::<Brand, _>(&rt, alloc, literal)
}

fn in_run<C: Case + Send + Sync, R: Wait + Abort>(
    rt: &R,
    alloc: Global,
    literal: LiteralRun,
) -> Result<(), Fail>
    requires { C.run ≡ literal }
{
    let (run, rules) = literal.named::<C>(alloc)?;
    let done = in_turn::<C, ClassifierTables<'_, C>, R>(rt, alloc, &run, &rules);
    drop(run);
    drop(rules);
    done
}

fn in_turn<C: Case, T: RunTables<C>, R: Wait + Abort>(
    rt: &R,
    alloc: Global,
    run: &RunData<C>,
    store: T::Store,
) -> Result<(), Fail>
    requires sound { IsTrue (list_all has_sound_actions C.run.edits) }
{
    let (editor, mut seers) = publish::<C, T, R>(rt, alloc, store, SEERS)?;
    assert_eq!(rt; seers.len(), SEERS);
    let first = seers.remove(0);
    drop(seers);
    let guard = first.enter(rt);
    let editor = publishes(rt, editor, run, Ok(1));
    assert_eq!(rt; guard.tables().version(), 0);
    let seer = enters(rt, guard.leave(), 1);
    let editor = publishes(rt, editor, run, Ok(2));
    let none_left = PublishFault::NoneLeft { version: 2 };
    let editor = publishes(rt, editor, run, Err(none_left));
    assert_eq!(rt; editor.tables().version(), 2);
    assert_eq!(rt; seer.version(), 1);
    drop(enters(rt, seer, 2));
    editor.end(rt);
    Ok(())
}
