ghost use Rattle.std.specs.Prelude.{◌≡◌};
ghost use Rattle.spec_tables.specs.Bundles.{AreBundles};
ghost use Rattle.spec_case.specs.Run.{edit_count, last_version};
ghost use Rattle.rule_tables.specs.History.{history_of};

use rule_tables::VersionedRules;
use run_case::Case;
use std::marker::PhantomData;

/// The rules of all versions of a run.
#[derive(Drop)]
pub struct RunRules<C: Case> {
    rules: VersionedRules,
    of: PhantomData<C>,
    ghost made: { rules ≡ history_of C.run.edits C.run.bundles },
    ghost whole: { AreBundles C.run.bundles (edit_count C.run) },
}

impl<C: Case> RunRules<C> {
    /// The rules that all bundles of a run made. It takes no memory.
    pub fn new(rules: VersionedRules) -> RunRules<C>
        requires made { rules ≡ history_of C.run.edits C.run.bundles }
        requires whole { AreBundles C.run.bundles (edit_count C.run) }
    {
        RunRules {
            rules,
            of: PhantomData,
        }
    }

    /// The store of the rules.
    pub fn store(&self) -> &VersionedRules
        ensures made { result.now ≡ history_of C.run.edits C.run.bundles }
        ensures whole { AreBundles C.run.bundles (edit_count C.run) }
    {
        &self.rules
    }

    /// How many edits there are.
    pub fn edits(&self) -> u32
        ensures { result ≡ edit_count C.run }
    {
        self.rules.edits()
    }

    /// How many versions the bundles make: the last one.
    pub fn versions(&self) -> u32
        ensures { result ≡ last_version C.run }
    {
        self.rules.version()
    }
}
