//! What a number makes, as files.
ghost use Rattle.std.specs.Prelude.{◌≡◌, ◌∷◌, map, IfOk, string_bytes};
ghost use Rattle.std.specs.Fmt.{decimal};
ghost use Rattle.edge_io.specs.declared.outside.InUse.TheVariants.{Nothing};
ghost use Rattle.edge_io.specs.Shelf.{untouched};
ghost use Rattle.spec_base.specs.Files.{lookup_or_empty};
ghost use Rattle.spec_run.specs.Verdict.{made_sources, made_list};
ghost use Rattle.edge_io.specs.Stored.{pairs};
ghost use Rattle.switch_input.specs.MadeViews.{file_by_port};

use crate::sources::MADE_EDITS;
use edge_io::Shelf;
use edge_io::memory::SteadyShelf;
use std::alloc::{AllocError, Global};
use trace_gen::{Made, MadeTrace, generate};

// A trace, named by the number of its port.
fn trace_file(alloc: Global, trace: MadeTrace) -> Result<(String, Vec<u8>), AllocError>
    ensures { IfOk result (λ file. (string_bytes file.0, file.1.items) ≡ file_by_port trace) }
{
    let name = trace.port.to_string(alloc)?;
    Ok((name, trace.bytes))
}

// What is made, as files: the edits, and then the traces.
fn files_of(alloc: Global, made: Made) -> Result<Vec<(String, Vec<u8>)>, AllocError>
    ensures { IfOk result (λ files. pairs files.items
        ≡ (made_sources.edits, made.edits.items) ∷ map file_by_port made.traces.items) }
{
    let mut files = Vec::new(alloc);
    files.push((String::from_str(alloc, MADE_EDITS)?, made.edits))?;
    'traces: for trace in made.traces {
        files.push(trace_file(alloc, trace)?)?;
    }
    Ok(files)
}

/// A shelf of what a number makes, under the names of its sources.
#[tactic(auto, using(crate::proofs::MadeFiles::made_are_files))]
pub fn made_shelf(alloc: Global, number: u32) -> Result<SteadyShelf, AllocError>
    ensures told { IfOk result (λ shelf. ⟦<SteadyShelf as Shelf>⟧.told shelf
        ≡ untouched (lookup_or_empty (made_list number))) }
    ensures in_use { IfOk result (λ shelf. ⟦<SteadyShelf as Shelf>⟧.in_use shelf ≡ Nothing) }
{
    let made = generate(alloc, number)?;
    let files = files_of(alloc, made)?;
    Ok(SteadyShelf::new(alloc, files))
}
