ghost use Rattle.std.specs.Prelude.{◌≡◌, ◌≤◌, IfOk};
ghost use Rattle.spec_xlate.specs.Translation.{switch_of, pipe};
ghost use Rattle.ovs_fields.specs.Packed.{numbers};
ghost use Rattle.rule_tables.specs.History.{newest, rules_of};
ghost use Rattle.pipe_model.specs.Runnable.{AreRunnable};
ghost use Rattle.pipe_model.specs.Plains.{translation_in};

use ovs_fields::Key;
use pipe_model::{Found, Lookups, Plain, SpareLists, translate_by};
use rule_tables::{OfAction, VersionedRules};
use std::alloc::{AllocError, Global};

/// The tables of a version, each lookup in which is a scan, and the ports. Nothing is noted.
#[derive(Clone, Copy)]
struct Scan<'a> {
    rules: &'a VersionedRules,
    version: u32,
    ports: &'a [u16],
}

impl Lookups for Scan<'_> {
    ghost use Rattle.xlate_pipeline.specs.Scans.{switch_in, CanScan};

    type Notes = ();

    ghost switch = { switch_in };

    ghost can_run = { CanScan };

    ghost Noted = { Unit {0} };

    ghost noted = { λ _. tt };

    ghost after = { λ _ _. tt };

    fn ports(&self) -> &[u16] {
        self.ports
    }

    fn find<'a>(&'a self, _depth: u32, table: u8, key: &Key, _notes: &mut ()) -> Option<Found<'a>> {
        match self.rules.scan(self.version, table, key) {
            None => None,
            Some(number) => Some(Found {
                number,
                actions: self.rules.actions(self.version, number),
            }),
        }
    }

    fn note(&self, _action: OfAction, _key: &Key, _notes: &mut ()) {}
}

/// What the tables of a version make of a packet of this key: a plain run of the actions, each lookup a scan.
///
/// `ports` are the numbers of the switch's ports, in any order. The version is one of the rules'. A translation that passes
/// a limit has no datapath actions: a lookup more than 64 deep, a 513th lookup, a 129th datapath action.
///
/// The only error is out of memory.
pub fn plain(
    alloc: Global,
    rules: &VersionedRules,
    version: u32,
    ports: &[u16],
    key: &Key,
) -> Result<Plain, AllocError>
    requires made { version ≤ newest rules.now }
    requires runnable { AreRunnable (rules_of rules.now version) }
    ensures { IfOk result (λ p. translation_in p ≡ pipe (switch_of (rules_of rules.now version) ports.now) (numbers key.now)) }
{
    let scan = Scan {
        rules,
        version,
        ports,
    };
    translate_by(&scan, SpareLists::new(alloc), key, &mut ())
}
