ghost use Rattle.std.specs.Prelude.{◌≡◌, ◌+◌, ◌<◌, ◌≤◌, IsTrue, IfOk, OnOk, OnErr};
ghost use Rattle.std.specs.List.{list_all};
ghost use Rattle.spec_case.specs.Run.{last_version};
ghost use Rattle.ovs_fields.specs.Packed.{numbers};
ghost use Rattle.spec_tables.specs.Edits.{has_sound_actions};

use ovs_fields::Key;
use pipe_model::SpareLists;
use run_case::{Case, RunData};
use run_xlate::Xlated;
use std::alloc::{AllocError, Global};
use std::marker::{Model, PhantomData};
use table_versions::RunTables;
use table_versions::rules::RunRules;
use xlate_pipeline::translate;

/// The tables of one version of a run, kept in a classifier over its rules.
///
/// Its type keeps that the rules are those of the run, and that the edits' actions can be run.
#[derive(Drop)]
pub struct ClassifierTables<'s, C: Case> {
    rules: tuple_classifier::Tables<'s>,
    of: PhantomData<C>,
}

impl<'s, C: Case> Model for ClassifierTables<'s, C> {
    ghost use Rattle.std.specs.Prelude.{ℕ};
    ghost use Rattle.run_tables.specs.OfRun.{AreOfRun};

    ghost Value = { ℕ };

    ghost view = { λ t. t.rules.number };

    ghost invariant = { λ t. AreOfRun C.run t.rules };
}

impl<'s, C: Case + Send + Sync + 's> RunTables<C> for ClassifierTables<'s, C> {
    ghost bundles = { λ t. t };

    type Store = &'s RunRules<C>;

    fn new(alloc: Global, store: &'s RunRules<C>) -> ClassifierTables<'s, C> {
        ClassifierTables {
            rules: tuple_classifier::Tables::new(alloc, store.store()),
            of: PhantomData,
        }
    }

    fn version(&self) -> u32 {
        self.rules.version()
    }

    fn advance(&mut self) -> Result<u32, AllocError> {
        self.rules.advance()
    }

    fn translate(
        &self,
        run: &RunData<C>,
        key: &Key,
        lists: SpareLists,
    ) -> Result<Xlated<C>, AllocError> {
        let made = translate(lists, &self.rules, run.ports().as_slice(), key)?;
        Ok(Xlated::new(made))
    }
}
