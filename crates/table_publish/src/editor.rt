ghost use Rattle.std.specs.Prelude.{◌≡◌, ◌⊎◌, ◌↔◌, ◌≤◌, ◌<◌, ◌+◌, ◌^◌, [], ◌∷◌, drop, Err, IsTrue, IfOk, IfErr, IfSome, OnOk, OnErr, MatchResult};
ghost use Rattle.std.specs.List.{list_all};
ghost use Rattle.spec_tables.specs.Edits.{has_sound_actions};
ghost use Rattle.left_right.specs.Sides.{view};
ghost use Rattle.spec_case.specs.Run.{last_version};
ghost use Rattle.table_publish.specs.Views.{IsNextOrNone};
ghost use Rattle.table_publish.specs.declared.editor.PublishFault.TheVariants.{NoneLeft, OutOfMemory};

use crate::rule::{Grows, Learns, Sees, Tells};
use crate::seer::{News, Seer};
use left_right::Absorb;
use left_right::reader::Factory;
use left_right::writer::Writer;
use run_case::{Case, RunData};
use std::alloc::{AllocError, Global};
use std::marker::Model;
use std::sync::Wait;
use std::thread::yield_now;
use table_versions::{NextVersion, RunTables, Tables};

/// Why no version was published.
#[derive(Clone, Copy, PartialEq, Eq)]
pub enum PublishFault {
    /// All bundles of the run are published, and make this version.
    NoneLeft { version: u32 },
    /// Nothing changed, and the call may be made again.
    OutOfMemory,
}

/// Publishes the bundles of a run. Contracts see the version that it published last, and its places. End it by `end`.
pub struct Editor<C: Case, T: RunTables<C>>
where
    Tables<C, T>: Absorb<NextVersion<C>, State = u64>,
{
    writer: Writer<Tables<C, T>, NextVersion<C>, u64, Grows<C>>,
    /// Tells of which publication it is.
    home: Factory<Tables<C, T>, u64, Grows<C>>,
    version: u32,
    places: usize,
}

impl<C: Case, T: RunTables<C>> Model for Editor<C, T>
where
    Tables<C, T>: Absorb<NextVersion<C>, State = u64>,
{
    ghost use Rattle.std.specs.Prelude.{◌≡◌, ◌≤◌, drop};
    ghost use Rattle.std.specs.Arc.{arc_value};
    ghost use Rattle.left_right.specs.Sides as sides;
    ghost use Rattle.spec_case.specs.Run.{last_version};
    ghost use Rattle.table_publish.specs.Seen.{Edited};
    ghost use Rattle.table_publish.specs.Views.{IsNextOrNone};

    ghost Value = { Edited };

    ghost view = { λ e. record {
      publication = (arc_value e.home.board).shared.table_id;
      version = e.version;
      places = e.places;
    } };

    // Its view and the shown tables are of its version, and nothing but the next version is pending.
    ghost invariant = { λ e. (sides.view e.writer.desk.place ≡ e.version)
        × (e.writer.desk.shown.value ≡ e.version)
        × (e.version ≤ last_version C.run)
        × IsNextOrNone e.version (drop e.writer.behind e.writer.log.items) };
}

// Sees to it that exactly the version after one is pending. The only error is out of memory.
fn prepare<C: Case, T: RunTables<C>>(
    writer: &mut Writer<Tables<C, T>, NextVersion<C>, u64, Grows<C>>,
    version: u32,
) -> Result<(), AllocError>
    requires next { IsNextOrNone version (drop writer.old.behind writer.old.log.items) }
    requires left { version < last_version C.run }
    ensures desk { writer.new.desk ≡ writer.old.desk }
    ensures pending { let after = drop writer.new.behind writer.new.log.items in
        MatchResult result (λ _. after ≡ (version + 1) ∷ [])
        (λ _. after ≡ drop writer.old.behind writer.old.log.items) }
{
    if writer.has_pending_operations() {
        return Ok(());
    }
    match writer.append(NextVersion::after(version)) {
        Ok(()) => Ok(()),
        Err(_) => Err(AllocError),
    }
}

impl<C: Case, T: RunTables<C>> Editor<C, T> {
    /// The version that it published last.
    pub fn version(&self) -> u32
        ensures number { result ≡ self.now.version }
        ensures made { result ≤ last_version C.run }
    {
        self.version
    }

    /// For how many readers at a time its publication asked for places: each seer is one, and so is each news that is
    /// neither learnt nor dropped.
    pub fn places(&self) -> usize
        ensures { result ≡ self.now.places }
    {
        self.places
    }

    /// The tables that it published last.
    pub fn tables(&self) -> &Tables<C, T>
        ensures { result.now ≡ self.now.version }
    {
        self.writer.published()
    }

    /// Publishes the next bundle of the run, and answers the version that it makes.
    ///
    /// It waits for those that still read the version before the last. After an error the editor is as it was.
    pub fn publish_next<R: Wait>(
        self,
        rt: &R,
        run: &RunData<C>,
    ) -> (Editor<C, T>, Result<u32, PublishFault>)
        ensures publication { result.0.publication ≡ self.publication }
        ensures places { result.0.places ≡ self.places }
        ensures next { OnOk result.1 (result.0.version ≡ self.version + 1) }
        ensures version { IfOk result.1 (λ v. v ≡ result.0.version) }
        ensures err { OnErr result.1 (result.0.version ≡ self.version) }
        ensures none_left { (result.1 ≡ Err (NoneLeft self.version)) ↔ (self.version ≡ last_version C.run) }
        ensures causes { IfErr result.1 (λ fault. (fault ≡ NoneLeft self.version) ⊎ (fault ≡ OutOfMemory)) }
    {
        let version = self.version;
        if version == run.last_version() {
            return (self, Err(PublishFault::NoneLeft { version }));
        }
        let Editor {
            mut writer,
            home,
            version,
            places,
        } = self;
        let Ok(()) = prepare(&mut writer, version) else {
            let editor = Editor {
                writer,
                home,
                version,
                places,
            };
            return (editor, Err(PublishFault::OutOfMemory));
        };
        let (writer, done) = writer.publish_as::<Sees, R>(rt);
        let Ok(()) = done else {
            let editor = Editor {
                writer,
                home,
                version,
                places,
            };
            return (editor, Err(PublishFault::OutOfMemory));
        };
        let version = version + 1;
        let editor = Editor {
            writer,
            home,
            version,
            places,
        };
        (editor, Ok(version))
    }

    /// Tells which version was published last. Each news is for one seer.
    ///
    /// It takes no memory. It waits while more news than there are seers are neither learnt nor dropped.
    pub fn tell<R: Wait>(&mut self, rt: &R) -> News<C, T>
        ensures publication { result.publication ≡ self.old.publication }
        ensures version { result.version ≡ self.old.version }
        ensures same { self.new ≡ self.old }
    {
        for _ in rt.forever() {
            if let Some(news) = self.try_tell() {
                return news;
            }
            yield_now();
        }
        unreachable!()
    }

    // Tells, if there is a place for the news.
    fn try_tell(&mut self) -> Option<News<C, T>>
        ensures publication { IfSome result (λ n. n.publication ≡ self.old.publication) }
        ensures version { IfSome result (λ n. n.version ≡ self.old.version) }
        ensures same { self.new ≡ self.old }
    {
        let home = self.home.another().ok()?;
        let mut reader = self.writer.factory().reader().ok()?;
        reader.learn::<Learns>(self.writer.tell::<Tells>());
        Some(News::of(Seer::of(reader, home, self.version)))
    }

    /// Ends the publishing. It waits for those that still read. A seer that is left would wait for ever to enter.
    pub fn end<R: Wait>(self, rt: &R) {
        let Editor {
            writer,
            home: _home,
            version: _,
            places: _,
        } = self;
        writer.take(rt);
    }

    /// An editor that has published version 0, with places for so many readers.
    pub(crate) fn new<R: Wait>(
        rt: &R,
        alloc: Global,
        store: T::Store,
        places: usize,
    ) -> Result<Editor<C, T>, AllocError>
        requires sound { IsTrue (list_all has_sound_actions C.run.edits) }
        requires places { (0 < places) × (places < 2 ^ 32) }
        ensures version { IfOk result (λ e. e.version ≡ 0) }
        ensures places { IfOk result (λ e. e.places ≡ places) }
    {
        let writer = Writer::new(
            alloc,
            Tables::new(alloc, store),
            Tables::new(alloc, store),
            places,
        )?;
        match writer.factory().another() {
            Ok(home) => Ok(Editor {
                writer,
                home,
                version: 0,
                places,
            }),
            Err(e) => {
                writer.take(rt);
                Err(e)
            }
        }
    }

    /// A seer that has seen nothing yet.
    pub(crate) fn seer(&self) -> Result<Seer<C, T>, AllocError>
        ensures publication { IfOk result (λ s. s.publication ≡ self.now.publication) }
        ensures version { IfOk result (λ s. s.version ≡ 0) }
    {
        let reader = self.writer.factory().reader()?;
        let home = self.home.another()?;
        Ok(Seer::of(reader, home, 0))
    }
}
