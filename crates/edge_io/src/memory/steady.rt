ghost use Rattle.std.specs.Prelude.{◌≡◌, ℕ, [], true, Some};
ghost use Rattle.edge_io.specs.declared.outside.InUse.TheVariants.{Nothing};
ghost use Rattle.edge_io.specs.Counts.{no_faults};
ghost use Rattle.edge_io.specs.Shelf.{untouched};
ghost use Rattle.spec_base.specs.Files.{lookup_or_empty};
ghost use Rattle.edge_io.specs.Stored.{pairs, told_of};

use crate::memory::folder::Folder;
use crate::{Failed, Shelf, Sink};
use std::alloc::Global;

/// Files in memory, of which every name that it wasn't given is an empty one. It tells its bytes.
///
/// Its counts are 0 for good, so it refuses only when out of memory.
#[derive(Drop)]
pub struct SteadyShelf {
    folder: Folder,
}

impl SteadyShelf {
    /// A shelf that holds these files, of a name the first.
    pub fn new(alloc: Global, files: Vec<(String, Vec<u8>)>) -> SteadyShelf
        ensures told { ⟦<SteadyShelf as Shelf>⟧.told result ≡
            untouched (lookup_or_empty (pairs files.items)) }
        ensures in_use { ⟦<SteadyShelf as Shelf>⟧.in_use result ≡ Nothing }
    {
        SteadyShelf {
            folder: Folder::new(alloc, files),
        }
    }

    /// The files that were written and closed, in the order of their closing.
    pub fn made(&self) -> &[(String, Vec<u8>)]
        ensures { pairs result.now ≡ (⟦<SteadyShelf as Shelf>⟧.told self.now).done }
    {
        self.folder.made()
    }
}

impl Shelf for SteadyShelf {
    ghost tells = { true };

    ghost told = { λ s. told_of (lookup_or_empty s.folder.held) s.folder };

    ghost in_use = { λ s. s.folder.in_use };

    ghost counts = { λ _. no_faults };

    fn open_file(&mut self, name: &str) -> Result<(), Failed> {
        let place = self.folder.place_of(name);
        self.folder.open(place, name)?;
        Ok(())
    }

    fn read(&mut self, into: &mut [u8]) -> Result<usize, Failed> {
        Ok(self.folder.read(into))
    }

    fn create_file(&mut self, name: &str) -> Result<(), Failed> {
        self.folder.create(name)?;
        Ok(())
    }

    fn write(&mut self, bytes: &[u8]) -> Result<usize, Failed> {
        self.folder.write(bytes)?;
        Ok(bytes.len())
    }

    fn close_file(&mut self) -> Result<(), Failed> {
        self.folder.close();
        Ok(())
    }
}

/// Text in memory. It tells its bytes, and refuses only when out of memory.
#[derive(Drop)]
pub struct SteadySink {
    text: Vec<u8>,
}

impl SteadySink {
    /// An empty sink.
    pub fn new(alloc: Global) -> SteadySink
        ensures { ⟦<SteadySink as Sink>⟧.written result ≡ [] }
    {
        SteadySink {
            text: Vec::new(alloc),
        }
    }

    /// The bytes that were written.
    pub fn text(&self) -> &[u8]
        ensures { result.now ≡ ⟦<SteadySink as Sink>⟧.written self.now }
    {
        self.text.as_slice()
    }
}

impl Sink for SteadySink {
    ghost tells = { true };

    ghost written = { λ s. s.text.items };

    ghost faults = { λ _. 0 };

    ghost needs_memory = { true };

    fn write(&mut self, bytes: &[u8]) -> Result<usize, Failed> {
        self.text.extend_from_slice(bytes)?;
        Ok(bytes.len())
    }
}
