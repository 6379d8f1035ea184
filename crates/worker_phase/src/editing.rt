//! The editor of a phase.
ghost use Rattle.std.specs.Prelude.{◌≡◌};

use crate::mailbox::tell_all;
use crate::phase::Phase;
use crate::shared::Shared;
use edge_io::{Gate, Point, Worker};
use run_case::Case;
use std::marker::PhantomData;
use std::sync::Wait;
use table_publish::Editor;
use table_versions::RunTables;

/// The editor of the phase's publication.
pub struct PhaseEditor<C: Case, T: RunTables<C>, P: Phase> {
    pub editor: Editor<C, T>,
    pub of: PhantomData<P>,
    pub ghost publication_is: { editor.publication ≡ P.publication },
}

// Publishes the bundles of the block, in order, and tells each version. It stops where memory is wanting.
fn publish_block<C: Case, T: RunTables<C>, P: Phase, R: Wait>(
    rt: &R,
    shared: &Shared<'_, C, T, P>,
    editor: Editor<C, T>,
) -> Editor<C, T>
    requires { editor.publication ≡ P.publication }
    ensures { result.publication ≡ P.publication }
{
    let mut editor = editor;
    'bundles: for _ in rt.forever() {
        if editor.version() >= shared.last {
            break;
        }
        let (next, published) = editor.publish_next(rt, shared.run);
        editor = next;
        if published.is_err() {
            break;
        }
        tell_all(rt, &mut editor, shared.mailboxes);
    }
    editor
}

// Puts the editor back into its slot, which is empty.
fn put_back<C: Case, T: RunTables<C>, P: Phase, R: Wait>(
    rt: &R,
    slot: &mut Option<PhaseEditor<C, T, P>>,
    editor: PhaseEditor<C, T, P>,
) {
    match slot.replace(editor) {
        None => {}
        Some(PhaseEditor { editor, of: _ }) => editor.end(rt),
    }
}

/// Publishes the bundles of the block with the editor that lies in a slot, puts it back, and says that it has ended.
pub fn edit<C: Case, T: RunTables<C>, P: Phase, R: Wait, G: Gate>(
    rt: &R,
    shared: &Shared<'_, C, T, P>,
    slot: &mut Option<PhaseEditor<C, T, P>>,
    gate: &G,
) {
    gate.pass(Point::Begin {
        worker: Worker::Editor,
    });
    if let Some(PhaseEditor { editor, of }) = slot.take() {
        let editor = publish_block(rt, shared, editor);
        put_back(rt, slot, PhaseEditor { editor, of });
    }
    shared.end_editing();
}
