ghost use Rattle.std.specs.Prelude.{◌≡◌, ◌+◌, ◌<◌, ◌≤◌, ℕ, IsTrue, IfOk, OnOk, OnErr};
ghost use Rattle.std.specs.List.{list_all};
ghost use Rattle.spec_case.specs.Run.{last_version};
ghost use Rattle.ovs_fields.specs.Packed.{numbers};
ghost use Rattle.spec_tables.specs.Edits.{has_sound_actions};

use ovs_fields::Key;
use pipe_model::SpareLists;
use run_case::{Case, RunData};
use run_xlate::Xlated;
use std::alloc::{AllocError, Global};
use std::marker::{Model, PhantomData};

/// What keeps the tables of one version of a run.
pub trait RunTables<C: Case>: Drop {
    /// How many bundles of the run they have, which is their version.
    ghost bundles: { Self → ℕ };

    /// The rules of all versions of the run, over which the tables are kept.
    type Store: Copy + Send + Sync;

    /// Version 0, before the first bundle: no rules. It takes no memory; what the tables take later is of `alloc`.
    fn new(alloc: Global, store: Self::Store) -> Self
        requires sound { IsTrue (list_all has_sound_actions C.run.edits) }
        ensures { bundles result ≡ 0 };

    /// The version.
    fn version(&self) -> u32
        ensures number { result ≡ bundles self.now }
        ensures made { result ≤ last_version C.run };

    /// Goes on to the next version, which the next bundle of the run makes, and answers it.
    ///
    /// The only error is out of memory, and then the version stays.
    fn advance(&mut self) -> Result<u32, AllocError>
        requires { bundles self.old < last_version C.run }
        ensures next { OnOk result (bundles self.new ≡ bundles self.old + 1) }
        ensures version { IfOk result (λ v. v ≡ bundles self.new) }
        ensures err { OnErr result (bundles self.new ≡ bundles self.old) };

    /// What the tables make of a packet of this key, with the bits of the key that decide it.
    ///
    /// It is made in `lists`: no memory is taken where what is made fits in what they have room for. A translation that
    /// passes a limit may need more.
    ///
    /// The only error is out of memory, and then nothing is left behind.
    fn translate(
        &self,
        run: &RunData<C>,
        key: &Key,
        lists: SpareLists,
    ) -> Result<Xlated<C>, AllocError>
        ensures key { IfOk result (λ x. x.key ≡ numbers key.now) }
        ensures version { IfOk result (λ x. x.version ≡ bundles self.now) };
}

/// The tables of one version of a run: the rules that so many bundles of it make, as `T` keeps them.
#[derive(Drop)]
pub struct Tables<C: Case, T: RunTables<C>> {
    pub(crate) kept: T,
    of: PhantomData<C>,
}

impl<C: Case, T: RunTables<C>> Model for Tables<C, T> {
    ghost use Rattle.std.specs.Prelude.{ℕ};

    ghost Value = { ℕ };

    ghost view = { λ t. T.bundles t.kept };
}

impl<C: Case, T: RunTables<C>> Tables<C, T> {
    /// Version 0, before the first bundle: no rules. It takes no memory; what the tables take later is of `alloc`.
    pub fn new(alloc: Global, store: T::Store) -> Tables<C, T>
        requires sound { IsTrue (list_all has_sound_actions C.run.edits) }
        ensures { result ≡ 0 }
    {
        Tables {
            kept: T::new(alloc, store),
            of: PhantomData,
        }
    }

    /// The version, which is how many bundles of the run led to it.
    pub fn version(&self) -> u32
        ensures number { result ≡ self.now }
        ensures made { result ≤ last_version C.run }
    {
        self.kept.version()
    }

    /// Goes on to the next version, and answers it.
    ///
    /// The only error is out of memory, and then the version stays.
    pub fn advance(&mut self) -> Result<u32, AllocError>
        requires { self.old < last_version C.run }
        ensures next { OnOk result (self.new ≡ self.old + 1) }
        ensures version { IfOk result (λ v. v ≡ self.new) }
        ensures err { OnErr result (self.new ≡ self.old) }
    {
        self.kept.advance()
    }

    /// Goes on to a version, that of the tables or a later one.
    ///
    /// The only error is out of memory, and then the tables are left at an earlier version than that, which is the one
    /// that they had or a later one.
    pub fn follow(&mut self, to: u32) -> Result<(), AllocError>
        requires order { self.old ≤ to }
        requires last { to ≤ last_version C.run }
        ensures there { OnOk result (self.new ≡ to) }
        ensures kept { OnErr result (self.old ≤ self.new) }
        ensures short { OnErr result (self.new < to) }
    {
        'versions: while self.version() < to {
            self.advance()?;
        }
        Ok(())
    }

    /// What the tables make of a packet of this key, with the bits of the key that decide it. It is made in `lists`, as
    /// the trait's `translate` makes it.
    ///
    /// The only error is out of memory, and then nothing is left behind.
    pub fn translate(
        &self,
        run: &RunData<C>,
        key: &Key,
        lists: SpareLists,
    ) -> Result<Xlated<C>, AllocError>
        ensures key { IfOk result (λ x. x.key ≡ numbers key.now) }
        ensures version { IfOk result (λ x. x.version ≡ self.now) }
    {
        self.kept.translate(run, key, lists)
    }
}
