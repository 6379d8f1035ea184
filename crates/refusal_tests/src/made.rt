ghost use Rattle.std.specs.Prelude.{◌≡◌, false};
ghost use Rattle.edge_io.specs.declared.outside.InUse.TheVariants.{Nothing};
ghost use Rattle.edge_io.specs.Counts.{no_faults};
ghost use Rattle.edge_io.specs.Shelf.{untold};

use edge_io::{Failed, InUse, Shelf};

/// Bytes, and how many times they stand after one another.
#[derive(Drop)]
pub struct Piece {
    pub bytes: Vec<u8>,
    pub times: usize,
}

/// A file, in pieces.
#[derive(Drop)]
pub struct MadeFile {
    pub name: String,
    pub pieces: Vec<Piece>,
}

/// Files that are made while they are read, so that none is held as a whole. A name that it wasn't given is an empty
/// file, and what is written is let go. It tells nothing, and never fails.
#[derive(Drop)]
pub struct MadeShelf {
    files: Vec<MadeFile>,
    in_use: InUse,
    // The place of the opened file, or none for an empty one, and how many of its bytes were read.
    file: Option<usize>,
    at: usize,
}

// The bytes from an offset to the end of the bytes of a piece.
fn rest_from(pieces: &[Piece], offset: usize) -> &[u8] {
    let mut at = offset;
    'pieces: for piece in pieces {
        let len = piece.bytes.len();
        let size = len.saturating_mul(piece.times);
        if at < size {
            let done = at.checked_rem(len).unwrap_or(0);
            return piece.bytes.get(done..).unwrap_or(&[]);
        }
        at -= size;
    }
    &[]
}

impl MadeShelf {
    pub fn new(files: Vec<MadeFile>) -> MadeShelf
        ensures { ⟦<MadeShelf as Shelf>⟧.in_use result ≡ Nothing }
    {
        MadeShelf {
            files,
            in_use: InUse::Nothing,
            file: None,
            at: 0,
        }
    }

    // What is left of the opened file, or a prefix of it.
    fn rest(&self) -> &[u8] {
        match self.file {
            Some(place) if place < self.files.len() => {
                rest_from(self.files[place].pieces.as_slice(), self.at)
            }
            _ => &[],
        }
    }
}

impl Shelf for MadeShelf {
    ghost tells = { false };

    ghost told = { λ _. untold };

    ghost in_use = { λ s. s.in_use };

    ghost counts = { λ _. no_faults };

    fn open_file(&mut self, name: &str) -> Result<(), Failed> {
        self.file = self
            .files
            .iter()
            .position(|file| file.name.as_str() == name);
        self.at = 0;
        self.in_use = InUse::Opened;
        Ok(())
    }

    fn read(&mut self, into: &mut [u8]) -> Result<usize, Failed> {
        let rest = self.rest();
        let n = into.len().min(rest.len());
        into[..n].copy_from_slice(&rest[..n]);
        self.at = self.at.saturating_add(n);
        Ok(n)
    }

    fn create_file(&mut self, _name: &str) -> Result<(), Failed> {
        self.in_use = InUse::Created;
        Ok(())
    }

    fn write(&mut self, bytes: &[u8]) -> Result<usize, Failed> {
        Ok(bytes.len())
    }

    fn close_file(&mut self) -> Result<(), Failed> {
        self.in_use = InUse::Nothing;
        Ok(())
    }
}
