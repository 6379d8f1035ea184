//! Places for readers: how many there are, and that news find some while no seer learns.
ghost use Rattle.std.specs.Prelude.{◌≡◌, ◌≤◌, IsTrue};
ghost use Rattle.std.specs.List.{list_all};
ghost use Rattle.spec_tables.specs.Edits.{has_sound_actions};

use crate::calls::publishes;
use crate::literal_run::LiteralRun;
use run_case::{Case, RunData};
use run_tables::ClassifierTables;
use std::alloc::Global;
use std::marker::Brand;
use std::process::Abort;
use std::sync::Wait;
use std::test::*;
use table_publish::{Editor, MOST_SEERS, News, publish};
use table_versions::RunTables;

#[test]
fn there_are_places_for_two_readers_for_each_seer_and_one_more(
    rt: HostRuntime,
) -> Result<(), Fail> {
    for (seers, places) in [(1, 3), (2, 5), (17, 35)] {
        let literal = LiteralRun::new(rt.alloc(), b"", &[])?;
        without_edits::<Brand, _>(&rt, rt.alloc(), literal, seers, places)?;
    }
    Ok(())
}

fn without_edits<C: Case + Send + Sync, R: Wait + Abort>(
    rt: &R,
    alloc: Global,
    literal: LiteralRun,
    seers: usize,
    places: usize,
) -> Result<(), Fail>
    requires run { C.run ≡ literal }
    requires seers { (1 ≤ seers) × (seers ≤ MOST_SEERS) }
{
    let (run, rules) = literal.named::<C>(alloc)?;
    let done = has_places::<C, ClassifierTables<'_, C>, R>(rt, alloc, &rules, seers, places);
    drop(run);
    drop(rules);
    done
}

// So many seers are published with so many places.
fn has_places<C: Case, T: RunTables<C>, R: Wait + Abort>(
    rt: &R,
    alloc: Global,
    store: T::Store,
    seers: usize,
    places: usize,
) -> Result<(), Fail>
    requires sound { IsTrue (list_all has_sound_actions C.run.edits) }
    requires seers { (1 ≤ seers) × (seers ≤ MOST_SEERS) }
{
    let (editor, seers) = publish::<C, T, R>(rt, alloc, store, seers)?;
    assert_eq!(rt; editor.places(), places);
    drop(seers);
    editor.end(rt);
    Ok(())
}

const SEERS: usize = 2;

#[test]
fn news_find_a_place_where_no_seer_has_learnt_the_ones_before(rt: HostRuntime) -> Result<(), Fail> {
    let alloc = rt.alloc();
    let literal = LiteralRun::two_versions(alloc)?;
    in_run::<Brand, _>(&rt, alloc, literal)
}

fn in_run<C: Case + Send + Sync, R: Wait + Abort>(
    rt: &R,
    alloc: Global,
    literal: LiteralRun,
) -> Result<(), Fail>
    requires { C.run ≡ literal }
{
    let (run, rules) = literal.named::<C>(alloc)?;
    let done = told_twice::<C, ClassifierTables<'_, C>, R>(rt, alloc, &run, &rules);
    drop(run);
    drop(rules);
    done
}

// The news of an editor, which are to be of this version.
fn told<C: Case, T: RunTables<C>, R: Wait + Abort>(
    rt: &R,
    editor: &mut Editor<C, T>,
    version: u32,
) -> News<C, T> {
    let news = editor.tell(rt);
    assert_eq!(rt; news.version(), version);
    news
}

// Two seers are told of two versions, and learn of none. The older news are given up when the newer ones are made, as
// in a mailbox.
fn told_twice<C: Case, T: RunTables<C>, R: Wait + Abort>(
    rt: &R,
    alloc: Global,
    run: &RunData<C>,
    store: T::Store,
) -> Result<(), Fail>
    requires sound { IsTrue (list_all has_sound_actions C.run.edits) }
{
    let (editor, seers) = publish::<C, T, R>(rt, alloc, store, SEERS)?;
    let mut editor = publishes(rt, editor, run, Ok(1));
    let one = told(rt, &mut editor, 1);
    let other = told(rt, &mut editor, 1);
    let mut editor = publishes(rt, editor, run, Ok(2));
    let newer_one = told(rt, &mut editor, 2);
    drop(one);
    let newer_other = told(rt, &mut editor, 2);
    drop(other);
    for seer in seers.iter() {
        assert_eq!(rt; seer.version(), 0);
    }
    drop(newer_one);
    drop(newer_other);
    drop(seers);
    editor.end(rt);
    Ok(())
}
