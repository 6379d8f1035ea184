ghost use Rattle.std.specs.Prelude.{◌≡◌, ◌≢◌, ◌<◌, ◌≤◌, ◌⊎◌, ◌↔◌, true, length, None, IsSome, IfSome, OnOk, OnErr, IfOk};
ghost use Rattle.edge_io.specs.declared.outside.InUse.TheVariants.{Nothing, Opened, Created};
ghost use Rattle.edge_io.specs.Calls.{with_call, IsDue, FailsWhere};
ghost use Rattle.edge_io.specs.Counts.{no_faults, with_read_fault, with_write_fault, HasCause, Notes};
ghost use Rattle.edge_io.specs.Shelf.{untouched, Opens, Reads, Creates, Writes, released, closed};
ghost use Rattle.spec_base.specs.Files.{lookup};
ghost use Rattle.edge_io.specs.Stored.{pairs, names};

use crate::memory::calls::NumberedCalls;
use crate::memory::folder::Folder;
use crate::{Failed, FaultCounts, InUse, Shelf};
use std::alloc::Global;

/// Files in memory. It tells its bytes, and fails at the calls whose numbers it was given.
///
/// Opening a name that it doesn't hold is a fault too, and no other call is.
#[derive(Drop)]
pub struct MemoryShelf {
    folder: Folder,
    calls: NumberedCalls,
    counts: FaultCounts,
    counts_at_last: FaultCounts,
}

impl MemoryShelf {
    ghost use Rattle.edge_io.specs.Memory.{shelf_told, shelf_in_use, shelf_counts, shelf_counts_at_last, shelf_calls};

    /// A shelf that holds these files, of a name the first. The calls of `fails` are numbered from 1
    /// over all five functions.
    pub fn new(alloc: Global, files: Vec<(String, Vec<u8>)>, fails: Vec<u64>) -> MemoryShelf
        ensures told { shelf_told result ≡ untouched (lookup (pairs files.items)) }
        ensures in_use { shelf_in_use result ≡ Nothing }
        ensures counts { shelf_counts result ≡ no_faults }
        ensures noted { shelf_counts_at_last result ≡ no_faults }
        ensures calls { shelf_calls result ≡ record { made = 0; to_fail = fails.items } }
    {
        MemoryShelf {
            folder: Folder::new(alloc, files),
            calls: NumberedCalls::new(fails),
            counts: FaultCounts::new(),
            counts_at_last: FaultCounts::new(),
        }
    }

    /// The files that were written and closed, in the order of their closing.
    pub fn made(&self) -> &[(String, Vec<u8>)]
        ensures { pairs result.now ≡ (shelf_told self.now).done }
    {
        self.folder.made()
    }

    /// The names of the files that were opened, or asked for in vain, in their order.
    pub fn opened(&self) -> &[String]
        ensures { names result.now ≡ (shelf_told self.now).opened }
    {
        self.folder.opened()
    }

    /// The name of the created file in use, and the bytes that were written to it.
    pub fn current(&self) -> Option<(&str, &[u8])>
        ensures created { IsSome result ↔ (shelf_in_use self.now ≡ Created) }
        ensures name { IfSome result (λ file. file.0.now ≡ (shelf_told self.now).last) }
        ensures bytes { IfSome result (λ file. file.1.now ≡ (shelf_told self.now).current) }
    {
        self.folder.current()
    }

    /// How many calls were made over all five functions, up to the greatest number of 64 bits.
    pub fn calls(&self) -> u64
        ensures { result ≡ (shelf_calls self.now).made }
    {
        self.calls.made()
    }
}

// Each function says first which of its calls fail, and then what every shelf promises.
impl Shelf for MemoryShelf {
    ghost use Rattle.edge_io.specs.Memory.{shelf_told, shelf_in_use, shelf_counts, shelf_counts_at_last, shelf_calls};

    ghost tells = { true };

    ghost told = { shelf_told };

    ghost in_use = { shelf_in_use };

    ghost counts = { shelf_counts };

    ghost counts_at_last = { shelf_counts_at_last };

    fn open_file(&mut self, name: &str) -> Result<(), Failed>
        requires { shelf_in_use self.old ≡ Nothing }
        ensures counted { shelf_calls self.new ≡ with_call (shelf_calls self.old) }
        ensures fails { let missing = (shelf_told self.old).holds name.now ≡ None in
            FailsWhere (IsDue (shelf_calls self.new) ⊎ missing) result }

        ensures opened { OnOk result (shelf_in_use self.new ≡ Opened) }
        ensures refused { OnErr result (shelf_in_use self.new ≡ Nothing) }
        ensures told { Opens (shelf_told self.old) (shelf_told self.new) name.now result }
        ensures since { let noted = shelf_counts_at_last self.new in
            Notes (shelf_counts self.old) (shelf_counts_at_last self.old) noted result }
        ensures cause { HasCause with_read_fault (shelf_counts self.old) (shelf_counts self.new) result }
    {
        let due = self.calls.next_fails();
        match self.folder.place_of(name) {
            Some(place) if !due => {
                self.folder.open(Some(place), name)?;
                self.counts_at_last = self.counts.snapshot();
                Ok(())
            }
            _ => {
                self.folder.keep_opened(name)?;
                self.counts_at_last = self.counts.snapshot();
                Err(self.counts.read_fault())
            }
        }
    }

    fn read(&mut self, into: &mut [u8]) -> Result<usize, Failed>
        requires { shelf_in_use self.old ≡ Opened }
        ensures counted { shelf_calls self.new ≡ with_call (shelf_calls self.old) }
        ensures fails { FailsWhere (IsDue (shelf_calls self.new)) result }

        ensures in_use { shelf_in_use self.new ≡ Opened }
        ensures bound { IfOk result (λ n. n ≤ length into.new) }
        ensures told { Reads (shelf_told self.old) (shelf_told self.new) into.new result }
        ensures since { shelf_counts_at_last self.new ≡ shelf_counts_at_last self.old }
        ensures cause { HasCause with_read_fault (shelf_counts self.old) (shelf_counts self.new) result }
    {
        if self.calls.next_fails() {
            return Err(self.counts.read_fault());
        }
        Ok(self.folder.read(into))
    }

    fn create_file(&mut self, name: &str) -> Result<(), Failed>
        requires { shelf_in_use self.old ≡ Nothing }
        ensures counted { shelf_calls self.new ≡ with_call (shelf_calls self.old) }
        ensures fails { FailsWhere (IsDue (shelf_calls self.new)) result }

        ensures created { OnOk result (shelf_in_use self.new ≡ Created) }
        ensures refused { OnErr result (shelf_in_use self.new ≡ Nothing) }
        ensures told { Creates (shelf_told self.old) (shelf_told self.new) name.now result }
        ensures since { let noted = shelf_counts_at_last self.new in
            Notes (shelf_counts self.old) (shelf_counts_at_last self.old) noted result }
        ensures cause { HasCause with_write_fault (shelf_counts self.old) (shelf_counts self.new) result }
    {
        if self.calls.next_fails() {
            self.folder.keep_name(name)?;
            self.counts_at_last = self.counts.snapshot();
            return Err(self.counts.write_fault());
        }
        self.folder.create(name)?;
        self.counts_at_last = self.counts.snapshot();
        Ok(())
    }

    fn write(&mut self, bytes: &[u8]) -> Result<usize, Failed>
        requires { shelf_in_use self.old ≡ Created }
        ensures counted { shelf_calls self.new ≡ with_call (shelf_calls self.old) }
        ensures fails { FailsWhere (IsDue (shelf_calls self.new)) result }

        ensures in_use { shelf_in_use self.new ≡ Created }
        ensures bound { IfOk result (λ n. n ≤ length bytes.now) }
        ensures some { IfOk result (λ n. 0 < length bytes.now → 0 < n) }
        ensures told { Writes (shelf_told self.old) (shelf_told self.new) bytes.now result }
        ensures since { shelf_counts_at_last self.new ≡ shelf_counts_at_last self.old }
        ensures cause { HasCause with_write_fault (shelf_counts self.old) (shelf_counts self.new) result }
    {
        let refused = self.calls.next_fails();
        if refused {
            return Err(self.counts.write_fault());
        }
        self.folder.write(bytes)?;
        Ok(bytes.len())
    }

    fn close_file(&mut self) -> Result<(), Failed>
        requires { shelf_in_use self.old ≢ Nothing }
        ensures counted { shelf_calls self.new ≡ with_call (shelf_calls self.old) }
        ensures fails { FailsWhere (IsDue (shelf_calls self.new)) result }

        ensures in_use { shelf_in_use self.new ≡ Nothing }
        ensures since { shelf_counts_at_last self.new ≡ shelf_counts_at_last self.old }
        ensures told_opened { shelf_in_use self.old ≡ Opened →
            shelf_told self.new ≡ released (shelf_told self.old) }
        ensures cause_opened { shelf_in_use self.old ≡ Opened →
            HasCause with_read_fault (shelf_counts self.old) (shelf_counts self.new) result }
        ensures told_created { shelf_in_use self.old ≡ Created →
            shelf_told self.new ≡ closed (shelf_told self.old) }
        ensures cause_created { shelf_in_use self.old ≡ Created →
            HasCause with_write_fault (shelf_counts self.old) (shelf_counts self.new) result }
    {
        let used = self.folder.in_use();
        self.folder.close();
        if !self.calls.next_fails() {
            return Ok(());
        }
        match used {
            InUse::Created => Err(self.counts.write_fault()),
            _ => Err(self.counts.read_fault()),
        }
    }
}
