use crate::path::Path;
use ovs_fields::{Key, Mask};
use pipe_model::{Found, Lookups};
use rule_tables::OfAction;
use spec_tools::Lookup;
use tuple_classifier::Tables;

/// The tables of a version, and the ports. Each lookup is noted.
#[derive(Clone, Copy)]
pub(crate) struct Watched<'a> {
    pub(crate) tables: &'a Tables<'a>,
    pub(crate) ports: &'a [u16],
}

impl Lookups for Watched<'_> {
    ghost use Rattle.std.specs.Prelude.{List};
    ghost use Rattle.spec_tools.specs.declared.lookup.Lookup as noting;
    ghost use Rattle.ofp_trace.specs.Notes.{lookups_in, with_event};
    ghost use Rattle.ofp_trace.specs.Watching.{switch_in, CanRun};

    type Notes = Path;

    ghost switch = { switch_in };

    ghost can_run = { CanRun };

    ghost Noted = { List noting.Lookup };

    ghost noted = { lookups_in };

    ghost after = { with_event };

    fn ports(&self) -> &[u16] {
        self.ports
    }

    fn find<'a>(&'a self, depth: u32, table: u8, key: &Key, path: &mut Path) -> Option<Found<'a>> {
        // Which bits the lookup consults is the translation's to tell.
        let mut consulted = Mask::none();
        let rule = self.tables.look(table, key, &mut consulted);
        path.note(Lookup { depth, table, rule });
        match rule {
            None => None,
            Some(number) => Some(Found {
                number,
                actions: self.tables.actions(number),
            }),
        }
    }

    fn note(&self, _action: OfAction, _key: &Key, _path: &mut Path) {}
}
