ghost use Rattle.std.specs.Prelude.{◌≡◌, ◌≢◌, ℕ, ◌<◌, ◌≤◌, Bool, List, length, IsTrue, OnOk, OnErr, IfOk, IsErrOf};
ghost use Rattle.edge_io.specs.declared.outside.Failed.TheVariants.{OutOfMemory};
ghost use Rattle.edge_io.specs.declared.outside.InUse.{InUse};
ghost use Rattle.edge_io.specs.Counts.{Counts, no_faults, with_fault, with_read_fault, with_write_fault, HasCause, Notes};
ghost use Rattle.edge_io.specs.Shelf.{Told, Opens, Reads, Creates, Writes, released, closed};
ghost use Rattle.edge_io.specs.Sink.{Says};

use std::alloc::AllocError;

/// Why a call of the outside was refused.
#[derive(Clone, Copy, Debug, PartialEq, Eq)]
pub enum Failed {
    /// The outside failed, and the count of the call rose.
    Fault,
    /// There was no memory. No count rose, and no byte was taken.
    OutOfMemory,
}

impl From<AllocError> for Failed {
    ghost from_gives = { λ _ e. e ≡ OutOfMemory };

    fn from(_: AllocError) -> Failed {
        Failed::OutOfMemory
    }
}

/// Which file of a shelf is in use.
#[derive(Clone, Copy, Debug)]
pub enum InUse {
    /// None is.
    Nothing,
    /// One that is read.
    Opened,
    /// One that is written.
    Created,
}

/// Files by name, of which at most one is in use.
///
/// # Errors
///
/// Each call may answer `Fault`, which raises the count of its kind and leaves the other, or
/// `OutOfMemory`, which leaves both as `Ok` does.
pub trait Shelf {
    /// Whether this kind of shelf tells its bytes.
    ghost tells: { Bool };

    /// What it tells.
    ghost told: { Self → Told };

    /// Which file is in use.
    ghost in_use: { Self → InUse };

    /// How often its calls have failed.
    ghost counts: { Self → Counts };

    /// The counts as they were when the last name was asked for.
    ghost counts_at_last: { Self → Counts } = { λ _. no_faults };

    /// Opens the file of a name, to be read from its beginning.
    fn open_file(&mut self, name: &str) -> Result<(), Failed>
        requires { in_use self.old ≡ InUse.Nothing }
        ensures opened { OnOk result (in_use self.new ≡ InUse.Opened) }
        ensures refused { OnErr result (in_use self.new ≡ InUse.Nothing) }
        ensures told { IsTrue tells → Opens (told self.old) (told self.new) name.now result }
        ensures since { IsTrue tells →
            Notes (counts self.old) (counts_at_last self.old) (counts_at_last self.new) result }
        ensures cause { HasCause with_read_fault (counts self.old) (counts self.new) result };

    /// Reads the next bytes of the opened file to the front of `into`, and answers how many. A read
    /// of 0 bytes into a slice that isn't empty is the end of the file.
    fn read(&mut self, into: &mut [u8]) -> Result<usize, Failed>
        requires { in_use self.old ≡ InUse.Opened }
        ensures in_use { in_use self.new ≡ InUse.Opened }
        ensures bound { IfOk result (λ n. n ≤ length into.new) }
        ensures told { IsTrue tells → Reads (told self.old) (told self.new) into.new result }
        ensures since { IsTrue tells → counts_at_last self.new ≡ counts_at_last self.old }
        ensures cause { HasCause with_read_fault (counts self.old) (counts self.new) result };

    /// Creates an empty file of a name, to be written.
    fn create_file(&mut self, name: &str) -> Result<(), Failed>
        requires { in_use self.old ≡ InUse.Nothing }
        ensures created { OnOk result (in_use self.new ≡ InUse.Created) }
        ensures refused { OnErr result (in_use self.new ≡ InUse.Nothing) }
        ensures told { IsTrue tells → Creates (told self.old) (told self.new) name.now result }
        ensures since { IsTrue tells →
            Notes (counts self.old) (counts_at_last self.old) (counts_at_last self.new) result }
        ensures cause { HasCause with_write_fault (counts self.old) (counts self.new) result };

    /// Writes bytes from the front of these to the created file, and answers how many: at least one,
    /// where there is one.
    fn write(&mut self, bytes: &[u8]) -> Result<usize, Failed>
        requires { in_use self.old ≡ InUse.Created }
        ensures in_use { in_use self.new ≡ InUse.Created }
        ensures bound { IfOk result (λ n. n ≤ length bytes.now) }
        ensures some { IfOk result (λ n. 0 < length bytes.now → 0 < n) }
        ensures told { IsTrue tells → Writes (told self.old) (told self.new) bytes.now result }
        ensures since { IsTrue tells → counts_at_last self.new ≡ counts_at_last self.old }
        ensures cause { HasCause with_write_fault (counts self.old) (counts self.new) result };

    /// Closes the file that is in use. It is closed whatever the answer is, and a created one keeps
    /// the bytes that were written.
    fn close_file(&mut self) -> Result<(), Failed>
        requires { in_use self.old ≢ InUse.Nothing }
        ensures in_use { in_use self.new ≡ InUse.Nothing }
        ensures since { IsTrue tells → counts_at_last self.new ≡ counts_at_last self.old }

        // An opened file.
        ensures told_opened { IsTrue tells → in_use self.old ≡ InUse.Opened →
            told self.new ≡ released (told self.old) }
        ensures cause_opened { in_use self.old ≡ InUse.Opened →
            HasCause with_read_fault (counts self.old) (counts self.new) result }

        // A created file.
        ensures told_created { IsTrue tells → in_use self.old ≡ InUse.Created →
            told self.new ≡ closed (told self.old) }
        ensures cause_created { in_use self.old ≡ InUse.Created →
            HasCause with_write_fault (counts self.old) (counts self.new) result };
}

/// Where text is written.
///
/// # Errors
///
/// `write` may answer `Fault`, which raises the count, or `OutOfMemory`, where this kind of sink needs
/// memory. Every answer but `Fault` leaves the count.
pub trait Sink {
    /// Whether this kind of sink tells its bytes.
    ghost tells: { Bool };

    /// The bytes that were written.
    ghost written: { Self → List ℕ };

    /// How often writing has failed.
    ghost faults: { Self → ℕ };

    /// Whether this kind of sink takes memory. One that doesn't is never out of memory.
    ghost needs_memory: { Bool };

    /// Writes bytes from the front of these, and answers how many: at least one, where there is one.
    fn write(&mut self, bytes: &[u8]) -> Result<usize, Failed>
        ensures bound { IfOk result (λ n. n ≤ length bytes.now) }
        ensures some { IfOk result (λ n. 0 < length bytes.now → 0 < n) }
        ensures told { IsTrue tells → Says (written self.old) (written self.new) bytes.now result }
        ensures memory { IsErrOf result OutOfMemory → IsTrue needs_memory }
        ensures cause { HasCause with_fault (faults self.old) (faults self.new) result };
}

/// A worker of a block. Receive workers and handlers have numbers, each kind from 0.
#[derive(Clone, Copy)]
pub enum Worker {
    Receiver { number: usize },
    Handler { number: usize },
    Editor,
    Revalidator,
}

/// A point of a run at which threads can be held, so that a test picks their order.
///
/// Ports are from 1 to 65,279. Places of frames in a trace and numbers of entries are from 1.
#[derive(Clone, Copy)]
pub enum Point {
    /// Before this worker begins its work at a block.
    Begin { worker: Worker },
    /// Before a batch of frames of this ingress port is looked up.
    Batch { port: u16 },
    /// After the upcall of the port's frame at this place was translated, before it is settled.
    Upcall { port: u16, place: u32 },
    /// After this entry of the port's cache was translated again, before it is kept or changed.
    Check { port: u16, entry: u32 },
}

/// Who is told of each point that a thread comes to, and may hold the thread there.
///
/// It promises nothing, and changes nothing of the run.
pub trait Gate {
    fn pass(&self, point: Point);
}

/// A gate that returns at once.
#[derive(Clone, Copy)]
pub struct OpenGate;

impl Gate for OpenGate {
    fn pass(&self, _point: Point) {}
}
