ghost use Rattle.std.specs.Prelude.{◌≡◌, None, IsTrue, MatchOption};
ghost use Rattle.spec_actions.specs.Sound.{is_sound};
ghost use Rattle.spec_tables.specs.Rules.{winner};
ghost use Rattle.spec_xlate.specs.Translation as xlate;
ghost use Rattle.ovs_fields.specs.Packed.{numbers};
ghost use Rattle.pipe_model.specs.Events.{Event};
ghost use Rattle.pipe_model.specs.Events.Event.{Looked, Acted};
ghost use Rattle.pipe_model.specs.Winning.{IsWinner};

use ovs_fields::Key;
use spec_actions::OfAction;

/// What a lookup found: the rule's number and its actions.
#[derive(Clone, Copy)]
pub struct Found<'a> {
    pub number: u32,
    pub actions: &'a [OfAction],
}

/// A switch whose tables are looked up in some way, and what is noted of a translation through them.
///
/// Notes are taken of each lookup, and of each action that leads to none, in the order in which they happen.
pub trait Lookups {
    /// What is noted: nothing, bits that were consulted, or each step.
    type Notes;

    /// The switch, as the definition sees it.
    ghost switch: { Self → xlate.Switch };

    /// Whether a translation can be run over it.
    ghost can_run: { Self → Type 0 };

    /// What notes are seen as.
    ghost Noted: { Type 0 };

    ghost noted: { Self.Notes → Noted };

    /// The notes after one more event.
    ghost after: { Noted → Event → Noted };

    /// The numbers of its ports, in any order.
    fn ports(&self) -> &[u16]
        ensures { result.now ≡ (switch self.now).ports };

    /// The rule that wins for a key in a table. The lookup is noted, with its depth; that of the first is 0.
    fn find<'a>(
        &'a self,
        depth: u32,
        table: u8,
        key: &Key,
        notes: &mut Self::Notes,
    ) -> Option<Found<'a>>
        requires { can_run self.now }
        ensures winner { let rules = (switch self.now).tables table in
            MatchOption result (winner rules (numbers key.now) ≡ None)
            (λ found. IsWinner rules (numbers key.now) found.number found.actions.now) }
        ensures noted { noted notes.new ≡ after (noted notes.old) (Looked depth table ((switch self.now).tables table) (numbers key.now)) };

    /// Notes an action on a packet of a key, before it is done.
    fn note(&self, action: OfAction, key: &Key, notes: &mut Self::Notes)
        requires { IsTrue (is_sound action) }
        ensures { noted notes.new ≡ after (noted notes.old) (Acted action (numbers key.now)) };
}
