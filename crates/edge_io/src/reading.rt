ghost use Rattle.std.specs.Prelude.{◌≡◌, ℕ, [], ◌+◌, ◌<◌, ◌≤◌, ◌++◌, length, Some, IsTrue, OnOk, IfOk, IsOk, IsSomeAnd, IsErrOf, vec_len};
ghost use Rattle.edge_io.specs.declared.reading.ReadFault.TheVariants.{OutOfMemory};
ghost use Rattle.edge_io.specs.Shelf.{Told};
ghost use Rattle.edge_io.specs.ReadAll.{read_fault_of, was_read, ReadCause, OnlyRead, Names};

use crate::{Failed, InUse, Shelf};
use std::alloc::{AllocError, Global};

/// How many bytes are asked for at once: so few that they stay in the cache of a processor, and that the allocator has
/// their memory at hand for the next file.
const PIECE: usize = 64 * 1024;

/// Why a file was not read.
#[derive(Clone, Copy, Debug, PartialEq, Eq)]
pub enum ReadFault {
    /// The shelf failed, and its count of reading rose.
    Fault,
    /// The file has more bytes than were allowed.
    Over,
    /// There was no memory.
    OutOfMemory,
}

impl From<Failed> for ReadFault {
    ghost from_gives = { λ f e. e ≡ read_fault_of f };

    fn from(f: Failed) -> ReadFault {
        match f {
            Failed::Fault => ReadFault::Fault,
            Failed::OutOfMemory => ReadFault::OutOfMemory,
        }
    }
}

impl From<AllocError> for ReadFault {
    ghost from_gives = { λ _ e. e ≡ OutOfMemory };

    fn from(_: AllocError) -> ReadFault {
        ReadFault::OutOfMemory
    }
}

// Room for what is read at once. Its contract leaves out the bytes: a proof that sees so many writes them all out.
fn new_piece(alloc: Global) -> Result<Vec<u8>, AllocError>
    ensures { IfOk result (λ piece. 0 < vec_len piece) }
{
    vec![in alloc; 0; PIECE]
}

// Reads to the end of the opened file, a piece at a time, or until there are more bytes than `max`.
fn read_rest<S: Shelf>(
    alloc: Global,
    shelf: &mut S,
    piece: &mut [u8],
    max: usize,
) -> Result<Vec<u8>, ReadFault>
    requires in_use { S.in_use shelf.old ≡ InUse.Opened }
    requires room { 0 < length piece.old }
    ensures in_use { S.in_use shelf.new ≡ InUse.Opened }
    ensures bound { IfOk result (λ v. vec_len v ≤ max) }
    ensures bytes { IsTrue S.tells → IfOk result (λ v. v.items ≡ (S.told shelf.old).left) }
    ensures over { IsTrue S.tells → IsErrOf result ReadFault.Over →
        max < length (S.told shelf.old).left }
    ensures told { IsTrue S.tells →
        S.told shelf.new ≡ record (S.told shelf.old) { left = (S.told shelf.new).left } }
    ensures since { IsTrue S.tells → S.counts_at_last shelf.new ≡ S.counts_at_last shelf.old }
    ensures cause { ReadCause (S.counts shelf.old) (S.counts shelf.new) result }
{
    let mut bytes = Vec::new(alloc);
    'pieces: while bytes.len() <= max {
        let n = shelf.read(piece)?;
        if n == 0 {
            return Ok(bytes);
        }
        bytes.extend_from_slice(&piece[..n])?;
    }
    Err(ReadFault::Over)
}

// Reads the opened file to its end, or as far as it may be read, and closes it.
fn read_opened<S: Shelf>(
    alloc: Global,
    shelf: &mut S,
    piece: &mut [u8],
    max: usize,
) -> Result<Vec<u8>, ReadFault>
    requires in_use { S.in_use shelf.old ≡ InUse.Opened }
    requires room { 0 < length piece.old }
    ensures in_use { S.in_use shelf.new ≡ InUse.Nothing }
    ensures bound { IfOk result (λ v. vec_len v ≤ max) }
    ensures bytes { IsTrue S.tells → IfOk result (λ v. v.items ≡ (S.told shelf.old).left) }
    ensures over { IsTrue S.tells → IsErrOf result ReadFault.Over →
        max < length (S.told shelf.old).left }
    ensures told { IsTrue S.tells →
        S.told shelf.new ≡ record (S.told shelf.old) { left = (S.told shelf.new).left } }
    ensures since { IsTrue S.tells → S.counts_at_last shelf.new ≡ S.counts_at_last shelf.old }
    ensures left { IsTrue S.tells → OnOk result ((S.told shelf.new).left ≡ []) }
    ensures cause { ReadCause (S.counts shelf.old) (S.counts shelf.new) result }
{
    match read_rest(alloc, shelf, piece, max) {
        Err(ReadFault::Fault) => {
            let _ = shelf.close_file();
            Err(ReadFault::Fault)
        }
        rest => {
            shelf.close_file()?;
            rest
        }
    }
}

/// Opens a file, reads it to its end and closes it, whatever the answer is.
///
/// # Errors
///
/// - `Fault` where a call of the shelf failed; the count of reading rose.
/// - `Over` exactly where the file has more than `max` bytes and nothing failed.
/// - `OutOfMemory` where there was no memory.
pub fn read_all<S: Shelf>(
    alloc: Global,
    shelf: &mut S,
    name: &str,
    max: usize,
) -> Result<Vec<u8>, ReadFault>
    requires { S.in_use shelf.old ≡ InUse.Nothing }
    ensures in_use { S.in_use shelf.new ≡ InUse.Nothing }

    // The bytes are those of the file.
    ensures bound { IfOk result (λ v. vec_len v ≤ max) }
    ensures bytes { IsTrue S.tells →
        IfOk result (λ v. (S.told shelf.old).holds name.now ≡ Some v.items) }

    // A file is refused for its length exactly where it has more than max bytes.
    ensures over { IsTrue S.tells → IsErrOf result ReadFault.Over →
        IsSomeAnd ((S.told shelf.old).holds name.now) (λ b. max < length b) }
    ensures within { IsTrue S.tells →
        IsSomeAnd ((S.told shelf.old).holds name.now) (λ b. length b ≤ max) →
        ¬ IsErrOf result ReadFault.Over }
    ensures too_long { IsTrue S.tells →
        IsSomeAnd ((S.told shelf.old).holds name.now) (λ b. max < length b) → ¬ IsOk result }

    // Nothing else that the shelf tells is changed.
    ensures told { IsTrue S.tells →
        OnOk result (S.told shelf.new ≡ was_read (S.told shelf.old) name.now) }
    ensures only_read { IsTrue S.tells → OnlyRead (S.told shelf.old) (S.told shelf.new) }
    ensures named { IsTrue S.tells → Names (S.told shelf.old) (S.told shelf.new) name.now result }

    // No call failed before the name was asked for.
    ensures since { IsTrue S.tells → IsErrOf result ReadFault.Fault →
        S.counts_at_last shelf.new ≡ S.counts shelf.old }
    ensures cause { ReadCause (S.counts shelf.old) (S.counts shelf.new) result }
{
    let mut piece = new_piece(alloc)?;
    shelf.open_file(name)?;
    read_opened(alloc, shelf, &mut piece, max)
}
