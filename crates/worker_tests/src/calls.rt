//! Calls of an editor and of a seer, with what they are to answer.
ghost use Rattle.std.specs.Prelude.{◌≡◌};

use run_case::{Case, RunData};
use std::process::Abort;
use std::sync::Wait;
use table_publish::{Editor, PublishFault, Seer};
use table_versions::RunTables;

/// Publishes the next bundle, which is to be answered so.
pub fn publishes<C: Case, T: RunTables<C>, R: Wait + Abort>(
    rt: &R,
    editor: Editor<C, T>,
    run: &RunData<C>,
    answer: Result<u32, PublishFault>,
) -> Editor<C, T>
    ensures { result.publication ≡ editor.publication }
{
    let (editor, published) = editor.publish_next(rt, run);
    assert!(rt; published == answer);
    editor
}

/// Enters the tables, which are to be of this version, and leaves them.
pub fn enters<C: Case, T: RunTables<C>, R: Wait + Abort>(
    rt: &R,
    seer: Seer<C, T>,
    version: u32,
) -> Seer<C, T>
    ensures { result.publication ≡ seer.publication }
{
    let guard = seer.enter(rt);
    assert_eq!(rt; guard.tables().version(), version);
    guard.leave()
}
