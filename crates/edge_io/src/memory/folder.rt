ghost use Rattle.std.specs.Prelude.{◌≡◌, ◌≢◌, ℕ, List, [], ◌∷◌, ◌++◌, length, min, take, drop, ◌↔◌, Some, None, IsSome, IfSome, IfNone, OnOk, OnErr};
ghost use Rattle.edge_io.specs.declared.outside.InUse.TheVariants.{Nothing, Opened, Created};
ghost use Rattle.spec_base.specs.Files.{lookup};
ghost use Rattle.edge_io.specs.Stored.{Stored, pairs, names, contents_of};

use crate::InUse;
use std::alloc::{AllocError, Global};
use std::marker::Model;
use std::mem;

/// The file that is in use.
#[derive(Drop)]
enum Slot {
    Empty,
    /// The place of a held file, or none for an empty one, and how many of its bytes were read.
    Opened { file: Option<usize>, at: usize },
    Created { name: String, bytes: Vec<u8> },
}

/// A folder in memory: the files that it holds, the one in use, and those that were made.
#[derive(Drop)]
pub(crate) struct Folder {
    alloc: Global,
    files: Vec<(String, Vec<u8>)>,
    made: Vec<(String, Vec<u8>)>,
    slot: Slot,
    last: String,
    opened: Vec<String>,
}

impl Model for Folder {
    ghost use Rattle.std.specs.Prelude.{string_bytes};
    ghost use Rattle.edge_io.specs.Stored.{Stored, pairs, names};
    ghost use Rattle.edge_io.specs.Slots.{use_of, left_of, current_of, IsSound};

    ghost Value = { Stored };

    ghost view = { λ f. record {
      held = pairs f.files.items;
      in_use = use_of f.slot;
      left = left_of (pairs f.files.items) f.slot;
      done = pairs f.made.items;
      current = current_of f.slot;
      last = string_bytes f.last;
      opened = names f.opened.items;
    } };

    ghost invariant = { λ f. IsSound (pairs f.files.items) f.made (string_bytes f.last) f.slot };
}

// The bytes of the file at a place; without one it is an empty file.
fn contents(files: &[(String, Vec<u8>)], file: Option<usize>) -> &[u8]
    ensures { result.now ≡ contents_of (pairs files.now) file }
{
    match file {
        Some(place) if place < files.len() => files[place].1.as_slice(),
        _ => &[],
    }
}

// The place of the first file of a name.
fn place_of(files: &[(String, Vec<u8>)], name: &str) -> Option<usize>
    ensures missing { IfNone result (lookup (pairs files.now) name.now ≡ None) }
    ensures found { IfSome result (λ place.
        lookup (pairs files.now) name.now ≡ Some (contents_of (pairs files.now) (Some place))) }
{
    'files: for (place, file) in files.iter().enumerate() {
        if file.0.as_str() == name {
            return Some(place);
        }
    }
    None
}

impl Folder {
    pub(crate) fn new(alloc: Global, files: Vec<(String, Vec<u8>)>) -> Folder
        ensures { result ≡ record {
          held = pairs files.items;
          in_use = Nothing;
          left = [];
          done = [];
          current = [];
          last = [];
          opened = [];
        } }
    {
        Folder {
            alloc,
            files,
            made: Vec::new(alloc),
            slot: Slot::Empty,
            last: String::new(alloc),
            opened: Vec::new(alloc),
        }
    }

    pub(crate) fn in_use(&self) -> InUse
        ensures { result ≡ self.now.in_use }
    {
        match &self.slot {
            Slot::Empty => InUse::Nothing,
            Slot::Opened { .. } => InUse::Opened,
            Slot::Created { .. } => InUse::Created,
        }
    }

    /// The files that were made, in the order of their closing.
    pub(crate) fn made(&self) -> &[(String, Vec<u8>)]
        ensures { pairs result.now ≡ self.now.done }
    {
        self.made.as_slice()
    }

    /// The created file that is in use.
    pub(crate) fn current(&self) -> Option<(&str, &[u8])>
        ensures created { IsSome result ↔ (self.now.in_use ≡ Created) }
        ensures name { IfSome result (λ file. file.0.now ≡ self.now.last) }
        ensures bytes { IfSome result (λ file. file.1.now ≡ self.now.current) }
    {
        match &self.slot {
            Slot::Created { name, bytes } => Some((name.as_str(), bytes.as_slice())),
            _ => None,
        }
    }

    /// The place of the first held file of a name.
    pub(crate) fn place_of(&self, name: &str) -> Option<usize>
        ensures missing { IfNone result (lookup self.now.held name.now ≡ None) }
        ensures found { IfSome result (λ place.
            lookup self.now.held name.now ≡ Some (contents_of self.now.held (Some place))) }
    {
        place_of(self.files.as_slice(), name)
    }

    /// The names of the files that were opened, or asked for in vain, in their order.
    pub(crate) fn opened(&self) -> &[String]
        ensures { names result.now ≡ self.now.opened }
    {
        self.opened.as_slice()
    }

    /// Keeps the name of a file that was to be created in vain.
    pub(crate) fn keep_name(&mut self, name: &str) -> Result<(), AllocError>
        requires { self.old.in_use ≡ Nothing }
        ensures idle { self.old.current ≡ [] }
        ensures ok { OnOk result (self.new ≡ record self.old { last = name.now }) }
        ensures err { OnErr result (self.new ≡ self.old) }
    {
        self.last = String::from_str(self.alloc, name)?;
        Ok(())
    }

    /// Keeps the name of a file that is opened, or was asked for in vain.
    pub(crate) fn keep_opened(&mut self, name: &str) -> Result<(), AllocError>
        requires { self.old.in_use ≡ Nothing }
        ensures ok { OnOk result (self.new ≡ record self.old {
          last = name.now;
          opened = self.old.opened ++ name.now ∷ [];
        }) }
        ensures err { OnErr result (self.new ≡ self.old) }
    {
        let opened = String::from_str(self.alloc, name)?;
        self.opened.reserve(1)?;
        self.last = String::from_str(self.alloc, name)?;
        self.opened.push_reserved(opened);
        Ok(())
    }

    /// Opens the file at a place under a name; without a place it is an empty file.
    pub(crate) fn open(&mut self, file: Option<usize>, name: &str) -> Result<(), AllocError>
        requires { self.old.in_use ≡ Nothing }
        ensures ok { OnOk result (self.new ≡ record self.old {
          in_use = Opened;
          left = contents_of self.old.held file;
          last = name.now;
          opened = self.old.opened ++ name.now ∷ [];
        }) }
        ensures err { OnErr result (self.new ≡ self.old) }
    {
        self.keep_opened(name)?;
        self.slot = Slot::Opened { file, at: 0 };
        Ok(())
    }

    /// Reads as many bytes as there is room for, or as are left.
    pub(crate) fn read(&mut self, into: &mut [u8]) -> usize
        requires { self.old.in_use ≡ Opened }
        ensures count { result ≡ min (length into.old) (length self.old.left) }
        ensures bytes { take result into.new ≡ take result self.old.left }
        ensures left { self.new ≡ record self.old { left = drop result self.old.left } }
    {
        match &mut self.slot {
            Slot::Opened { file, at } => {
                let rest = &contents(self.files.as_slice(), *file)[*at..];
                let n = into.len().min(rest.len());
                into[..n].copy_from_slice(&rest[..n]);
                *at += n;
                n
            }
            _ => unreachable!(),
        }
    }

    /// Begins an empty file.
    pub(crate) fn create(&mut self, name: &str) -> Result<(), AllocError>
        requires { self.old.in_use ≡ Nothing }
        ensures ok { OnOk result (self.new ≡ record self.old {
          in_use = Created;
          current = [];
          last = name.now;
        }) }
        ensures err { OnErr result (self.new ≡ self.old) }
    {
        let last = String::from_str(self.alloc, name)?;
        let name = String::from_str(self.alloc, name)?;
        self.made.reserve(1)?;
        self.last = last;
        self.slot = Slot::Created {
            name,
            bytes: Vec::new(self.alloc),
        };
        Ok(())
    }

    /// Adds bytes to the created file.
    pub(crate) fn write(&mut self, bytes: &[u8]) -> Result<(), AllocError>
        requires { self.old.in_use ≡ Created }
        ensures ok { OnOk result (self.new ≡ record self.old { current = self.old.current ++ bytes.now }) }
        ensures err { OnErr result (self.new ≡ self.old) }
    {
        match &mut self.slot {
            Slot::Created { bytes: written, .. } => written.extend_from_slice(bytes),
            _ => unreachable!(),
        }
    }

    /// Closes the file that is in use. A created one is then among those that were made.
    pub(crate) fn close(&mut self)
        ensures opened { self.old.in_use ≡ Opened →
            self.new ≡ record self.old { in_use = Nothing; left = [] } }
        ensures created { self.old.in_use ≡ Created → self.new ≡ record self.old {
          in_use = Nothing;
          done = self.old.done ++ (self.old.last, self.old.current) ∷ [];
          current = [];
        } }
    {
        if let Slot::Created { name, bytes } = mem::replace(&mut self.slot, Slot::Empty) {
            self.made.push_reserved((name, bytes));
        }
    }
}
