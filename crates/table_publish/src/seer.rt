ghost use Rattle.std.specs.Prelude.{◌≡◌, ◌≤◌, max};
ghost use Rattle.std.specs.Arc.{arc_value};
ghost use Rattle.left_right.specs.Sides.{view};

use crate::rule::{Grows, Sees};
use left_right::reader::{Factory, Reader, Reading};
use run_case::Case;
use std::marker::Model;
use std::sync::Wait;
use std::thread::yield_now;
use table_versions::{RunTables, Tables};

/// Reads the tables that are published. Contracts see the greatest version that it saw or learnt.
#[derive(Drop)]
pub struct Seer<C: Case, T: RunTables<C>> {
    reader: Reader<Tables<C, T>, u64, Grows<C>>,
    /// Tells of which publication it is.
    home: Factory<Tables<C, T>, u64, Grows<C>>,
    version: u32,
}

impl<C: Case, T: RunTables<C>> Model for Seer<C, T> {
    ghost use Rattle.std.specs.Prelude.{◌≡◌};
    ghost use Rattle.std.specs.Arc.{arc_value};
    ghost use Rattle.left_right.specs.Sides as sides;
    ghost use Rattle.table_publish.specs.Seen.{Seen};

    ghost Value = { Seen };

    ghost view = { λ s. record { publication = (arc_value s.home.board).shared.table_id; version = s.version } };

    ghost invariant = { λ s. s.version ≡ sides.view s.reader.place };
}

impl<C: Case, T: RunTables<C>> Seer<C, T> {
    /// A seer of a reader, whose view is this version.
    pub(crate) fn of(
        reader: Reader<Tables<C, T>, u64, Grows<C>>,
        home: Factory<Tables<C, T>, u64, Grows<C>>,
        version: u32,
    ) -> Seer<C, T>
        requires { view reader.place ≡ version }
        ensures publication { result.publication ≡ (arc_value home.board).shared.table_id }
        ensures version { result.version ≡ version }
    {
        Seer {
            reader,
            home,
            version,
        }
    }

    /// The greatest version that it saw or learnt.
    pub fn version(&self) -> u32
        ensures { result ≡ self.now.version }
    {
        self.version
    }

    /// Takes the tables that are published now. What is published meanwhile doesn't change them.
    ///
    /// It takes no memory.
    pub fn enter<R: Wait>(self, rt: &R) -> Guard<C, T>
        ensures publication { result.publication ≡ self.publication }
        ensures version { self.version ≤ result.version }
    {
        let Seer {
            mut reader,
            home,
            version: _,
        } = self;
        for _ in rt.forever() {
            match reader.enter_as::<Sees>() {
                Ok(reading) => return Guard { reading, home },
                Err(refused) => reader = refused,
            }
            yield_now();
        }
        unreachable!()
    }

    /// Learns which version was published: from now on it enters none that is older.
    ///
    /// It takes no memory.
    pub fn learn(self, news: News<C, T>) -> Seer<C, T>
        requires { news.publication ≡ self.publication }
        ensures publication { result.publication ≡ self.publication }
        ensures version { result.version ≡ max self.version news.version }
    {
        let News { told } = news;
        if self.version < told.version {
            told
        } else {
            self
        }
    }
}

/// Tables that are read. Contracts see their version. End it by `leave`.
pub struct Guard<C: Case, T: RunTables<C>> {
    reading: Reading<Tables<C, T>, u64, Grows<C>>,
    home: Factory<Tables<C, T>, u64, Grows<C>>,
}

impl<C: Case, T: RunTables<C>> Model for Guard<C, T> {
    ghost use Rattle.std.specs.Prelude.{◌≡◌};
    ghost use Rattle.std.specs.Arc.{arc_value};
    ghost use Rattle.left_right.specs.Sides as sides;
    ghost use Rattle.table_publish.specs.Seen.{Seen};

    ghost Value = { Seen };

    ghost view = { λ g. record { publication = (arc_value g.home.board).shared.table_id; version = sides.view g.reading.place } };

    ghost invariant = { λ g. g.reading.part.value ≡ sides.view g.reading.place };
}

impl<C: Case, T: RunTables<C>> Guard<C, T> {
    /// The tables of the version that was entered.
    pub fn tables(&self) -> &Tables<C, T>
        ensures { result.now ≡ self.now.version }
    {
        self.reading.get()
    }

    /// Ends the reading, and gives the seer back, which has seen this version.
    pub fn leave(self) -> Seer<C, T>
        ensures { result ≡ self }
    {
        let Guard { reading, home } = self;
        let version = reading.get().version();
        Seer::of(reading.leave(), home, version)
    }
}

/// That a version was published, for one seer to learn. Contracts see the version that is told.
#[derive(Drop)]
pub struct News<C: Case, T: RunTables<C>> {
    told: Seer<C, T>,
}

impl<C: Case, T: RunTables<C>> Model for News<C, T> {
    ghost use Rattle.table_publish.specs.Seen.{Seen};

    ghost Value = { Seen };

    ghost view = { λ n. n.told };
}

impl<C: Case, T: RunTables<C>> News<C, T> {
    /// News of a seer that has learnt what is told.
    pub(crate) fn of(told: Seer<C, T>) -> News<C, T>
        ensures { result ≡ told }
    {
        News { told }
    }

    /// The version that is told.
    pub fn version(&self) -> u32
        ensures { result ≡ self.now.version }
    {
        self.told.version()
    }
}
