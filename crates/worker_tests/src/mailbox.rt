//! News that a seer learns from behind a lock.
ghost use Rattle.std.specs.Prelude.{◌≡◌, ◌≤◌, IsTrue};
ghost use Rattle.std.specs.List.{list_all};
ghost use Rattle.spec_tables.specs.Edits.{has_sound_actions};

use crate::calls::{enters, publishes};
use crate::literal_run::LiteralRun;
use run_case::{Case, RunData};
use run_tables::ClassifierTables;
use std::alloc::Global;
use std::marker::{Brand, Model, PhantomData};
use std::process::Abort;
use std::sync::{Mutex, Wait};
use std::test::*;
use table_publish::{Editor, News, Seer, publish};
use table_versions::RunTables;

// Names one publication.
trait Publication {
    ghost use Rattle.atomic_table.specs.Seated.{TableId};

    ghost id: { TableId };
}

impl Publication for Brand {
    ghost use Rattle.std.specs.Prelude.{[]};

    ghost id = { record { words = 0; slots = 0; views_name = 0; atom = 0; block = 0; offset = 0; slot_names = [] } };
}

// The newest news of a publication.
#[derive(Drop)]
struct Mailbox<C: Case, T: RunTables<C>, P: Publication> {
    news: Option<News<C, T>>,
    of: PhantomData<P>,
}

impl<C: Case, T: RunTables<C>, P: Publication> Model for Mailbox<C, T, P> {
    ghost use Rattle.std.specs.Prelude.{◌≡◌, IfSome};

    ghost Value = { Unit {0} };

    ghost view = { λ m. tt };

    ghost invariant = { λ m. IfSome m.news (λ n. n.publication ≡ P.id) };
}

impl<C: Case, T: RunTables<C>, P: Publication> Mailbox<C, T, P> {
    fn new() -> Mailbox<C, T, P> {
        Mailbox {
            news: None,
            of: PhantomData,
        }
    }

    fn post(&mut self, news: News<C, T>)
        requires { news.publication ≡ P.id }
    {
        self.news = Some(news);
    }

    // Has a seer learn the news, if there are any.
    fn inform(&mut self, seer: Seer<C, T>) -> Seer<C, T>
        requires { seer.publication ≡ P.id }
        ensures publication { result.publication ≡ seer.publication }
        ensures version { seer.version ≤ result.version }
    {
        match self.news.take() {
            Some(news) => seer.learn(news),
            None => seer,
        }
    }
}

#[test]
fn news_are_learnt_from_behind_a_lock(rt: HostRuntime) -> Result<(), Fail> {
    let alloc = rt.alloc();
    let literal = LiteralRun::two_versions(alloc)?;
    in_run::<Brand, _>(&rt, alloc, literal)
}

fn in_run<C: Case + Send + Sync, R: Wait + Abort>(
    rt: &R,
    alloc: Global,
    literal: LiteralRun,
) -> Result<(), Fail>
    requires { C.run ≡ literal }
{
    let (run, rules) = literal.named::<C>(alloc)?;
    let done = one_told::<C, ClassifierTables<'_, C>, R>(rt, alloc, &run, &rules);
    drop(run);
    drop(rules);
    done
}

fn one_told<C: Case, T: RunTables<C>, R: Wait + Abort>(
    rt: &R,
    alloc: Global,
    run: &RunData<C>,
    store: T::Store,
) -> Result<(), Fail>
    requires sound { IsTrue (list_all has_sound_actions C.run.edits) }
{
    let (editor, mut seers) = publish::<C, T, R>(rt, alloc, store, 1)?;
    let editor = publishes(rt, editor, run, Ok(1));
    in_publication::<C, T, Brand, R>(rt, editor, seers.remove(0));
    drop(seers);
    Ok(())
}

fn in_publication<C: Case, T: RunTables<C>, P: Publication, R: Wait + Abort>(
    rt: &R,
    editor: Editor<C, T>,
    seer: Seer<C, T>,
)
    requires editor { editor.publication ≡ P.id }
    requires seer { seer.publication ≡ P.id }
{
    let mut editor = editor;
    let mailbox: Mutex<Mailbox<C, T, P>> = Mutex::new(Mailbox::new());
    let news = editor.tell(rt);
    assert_eq!(rt; news.version(), 1);
    mailbox.lock(rt).post(news);
    assert_eq!(rt; seer.version(), 0);
    let seer = mailbox.lock(rt).inform(seer);
    assert_eq!(rt; seer.version(), 1);
    drop(enters(rt, seer, 1));
    drop(mailbox);
    editor.end(rt);
}
