//! Files in memory, and the words of a command.
ghost use Rattle.std.specs.Prelude.{◌≡◌, IfOk};
ghost use Rattle.edge_io.specs.declared.outside.InUse.TheVariants.{Nothing};

use edge_io::Shelf;
use edge_io::memory::MemoryShelf;
use std::alloc::{AllocError, Global};

/// A shelf that has these files, whose call of this number fails. No call has the number 0.
pub fn shelf_of(
    alloc: Global,
    texts: &[(&str, &str)],
    failing_call: u64,
) -> Result<MemoryShelf, AllocError>
    ensures { IfOk result (λ shelf. ⟦<MemoryShelf as Shelf>⟧.in_use shelf ≡ Nothing) }
{
    let mut files = Vec::new(alloc);
    for (name, text) in texts {
        let bytes = Vec::from_slice(alloc, text.as_bytes())?;
        files.push((String::from_str(alloc, name)?, bytes))?;
    }
    let fails = vec![in alloc; failing_call]?;
    Ok(MemoryShelf::new(alloc, files, fails))
}

/// The words of a command.
pub fn words_of(alloc: Global, texts: &[&str]) -> Result<Vec<String>, AllocError> {
    let mut words = Vec::new(alloc);
    for text in texts {
        words.push(String::from_str(alloc, text)?)?;
    }
    Ok(words)
}
