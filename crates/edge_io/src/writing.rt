ghost use Rattle.std.specs.Prelude.{◌≡◌, ℕ, List, ◌++◌, Ok, take, IsTrue, IsOk, OnOk, OnErr, IsErrOf};
ghost use Rattle.spec_base.specs.Counts.{Rose};
ghost use Rattle.edge_io.specs.Counts.{HasCause, with_fault};
ghost use Rattle.edge_io.specs.Written.{WritesAll, WritesFile};
ghost use Rattle.edge_io.specs.Filling.{IsCallableOnCreated, Fills, MayAnswer};

use crate::{Failed, InUse, Shelf, Sink};

/// Writes all the bytes to the created file. After a refusal a prefix of them was written.
pub fn write_all<S: Shelf>(shelf: &mut S, bytes: &[u8]) -> Result<(), Failed>
    requires { S.in_use shelf.old ≡ InUse.Created }
    ensures { WritesAll S.Shelf shelf.old shelf.new bytes.now result }
{
    let mut at = 0;
    while at < bytes.len() {
        at += shelf.write(&bytes[at..])?;
    }
    Ok(())
}

/// Writes all the bytes to a sink. After a refusal a prefix of them was written.
pub fn say_all<K: Sink>(say: &mut K, bytes: &[u8]) -> Result<(), Failed>
    ensures ok { IsTrue K.tells → OnOk result (K.written say.new ≡ K.written say.old ++ bytes.now) }
    ensures err { IsTrue K.tells →
        OnErr result ((n : ℕ) × (K.written say.new ≡ K.written say.old ++ take n bytes.now)) }
    ensures memory { IsErrOf result Failed.OutOfMemory → IsTrue K.needs_memory }
    ensures cause { HasCause with_fault (K.faults say.old) (K.faults say.new) result }

    // Where no memory is needed and the count didn't rise, nothing was left out.
    ensures sure { ¬ IsTrue K.needs_memory → ¬ Rose (K.faults say.old) (K.faults say.new) → IsOk result }
{
    let mut at = 0;
    while at < bytes.len() {
        at += say.write(&bytes[at..])?;
    }
    Ok(())
}

/// Creates the file of a name, has it filled, and closes it. Its bytes are those that each call of `fill` writes.
///
/// # Errors
///
/// - `Fault`: the shelf failed in creating, writing or closing the file, and its count of writing rose.
/// - `OutOfMemory`: there was no memory for the shelf, or `fill` had none.
///
/// After an error the file was not created, or has a prefix of its bytes. It may then still be in use.
pub fn write_file<S: Shelf, F: FnOnce(&mut S) -> Result<(), Failed>>(
    shelf: &mut S,
    name: &str,
    fill: F,
) -> Result<(), Failed>
    requires in_use { S.in_use shelf.old ≡ InUse.Nothing }
    requires callable { IsCallableOnCreated S.Shelf (F.pre fill) }
    requires fills { (bytes : List ℕ) × Fills S.Shelf (F.post fill) bytes }
    ensures file { (bytes : List ℕ) → Fills S.Shelf (F.post fill) bytes
        → WritesFile S.Shelf shelf.old shelf.new (name.now, bytes) result }
    ensures filled { OnOk result (MayAnswer S.Shelf (F.post fill) (Ok tt)) }
{
    shelf.create_file(name)?;
    fill(shelf)?;
    shelf.close_file()
}
