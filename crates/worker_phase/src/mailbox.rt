//! News of versions on their way from the editor to a seer.
ghost use Rattle.std.specs.Prelude.{◌≡◌, IfSome};
ghost use Rattle.std.proofs.Props.{props};

use crate::phase::Phase;
use run_case::Case;
use std::marker::PhantomData;
use std::sync::{Mutex, Wait};
use table_publish::{Editor, News, Seer};
use table_versions::RunTables;

/// Where the newest news for one seer lie until it learns them.
#[derive(Drop)]
pub struct Mailbox<C: Case, T: RunTables<C>, P: Phase> {
    news: Option<News<C, T>>,
    of: PhantomData<P>,
    ghost published: { IfSome news (λ n. n.publication ≡ P.publication) } by { Prim.hlevel props },
}

impl<C: Case, T: RunTables<C>, P: Phase> Mailbox<C, T, P> {
    /// A mailbox without news.
    pub fn new() -> Mailbox<C, T, P> {
        Mailbox {
            news: None,
            of: PhantomData,
        }
    }

    // Puts news in, in place of older ones.
    fn put(&mut self, news: News<C, T>)
        requires { news.publication ≡ P.publication }
    {
        self.news = Some(news);
    }

    // Takes the news out, if there are any.
    fn take(&mut self) -> Option<News<C, T>>
        ensures { IfSome result (λ n. n.publication ≡ P.publication) }
    {
        self.news.take()
    }
}

/// A seer that has learnt the news in its mailbox, if there are any.
pub fn learn<C: Case, T: RunTables<C>, P: Phase, R: Wait>(
    rt: &R,
    mailbox: &Mutex<Mailbox<C, T, P>>,
    seer: Seer<C, T>,
) -> Seer<C, T>
    requires { seer.publication ≡ P.publication }
    ensures { result.publication ≡ P.publication }
{
    let found = mailbox.lock(rt).take();
    match found {
        Some(news) => seer.learn(news),
        None => seer,
    }
}

/// Puts news of the version that was published last into each mailbox.
pub fn tell_all<C: Case, T: RunTables<C>, P: Phase, R: Wait>(
    rt: &R,
    editor: &mut Editor<C, T>,
    mailboxes: &[Mutex<Mailbox<C, T, P>>],
)
    requires { editor.old.publication ≡ P.publication }
    ensures { editor.new ≡ editor.old }
{
    'mailboxes: for mailbox in mailboxes {
        let news = editor.tell(rt);
        mailbox.lock(rt).put(news);
    }
}
