use crate::consulting::consult;
use ovs_fields::{Key, Mask};
use pipe_model::{Found, Lookups};
use rule_tables::OfAction;
use tuple_classifier::Tables;

/// The tables of a version, and the ports. A mask is noted: the bits that lookups and actions consult are added to it.
#[derive(Clone, Copy)]
pub(crate) struct Switch<'a> {
    pub(crate) tables: &'a Tables<'a>,
    pub(crate) ports: &'a [u16],
}

impl Lookups for Switch<'_> {
    ghost use Rattle.std.specs.Prelude.{ℕ, List};
    ghost use Rattle.ovs_fields.specs.Packed.{bits};
    ghost use Rattle.xlate_pipeline.specs.Steps.{with_event};
    ghost use Rattle.xlate_pipeline.specs.Switches.{switch_in, CanRun};

    type Notes = Mask;

    ghost switch = { switch_in };

    ghost can_run = { CanRun };

    ghost Noted = { List ℕ };

    ghost noted = { bits };

    ghost after = { with_event };

    fn ports(&self) -> &[u16] {
        self.ports
    }

    fn find<'a>(&'a self, _depth: u32, table: u8, key: &Key, mask: &mut Mask) -> Option<Found<'a>> {
        match self.tables.look(table, key, mask) {
            None => None,
            Some(number) => Some(Found {
                number,
                actions: self.tables.actions(number),
            }),
        }
    }

    fn note(&self, action: OfAction, key: &Key, mask: &mut Mask) {
        consult(mask, key, action);
    }
}
