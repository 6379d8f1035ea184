ghost use Rattle.std.specs.Prelude.{◌≡◌, [], ◌∷◌, map, None, IsTrue, IsOk};
ghost use Rattle.std.specs.List.{list_all};
ghost use Rattle.spec_tables.specs.Edits.{has_sound_actions};
ghost use Rattle.spec_run.specs.Mirrored.{mirror_files};
ghost use Rattle.spec_run.specs.Outputs.{port_file, netflow_files, files_of, output_of};
ghost use Rattle.rule_tables.specs.History.{history_of};
ghost use Rattle.edge_io.specs.declared.outside.InUse.TheVariants.{Nothing};
ghost use Rattle.edge_io.specs.Written.{WritesFile};
ghost use Rattle.switch_output.specs.RunFiles.{bytes_of, run_file};
ghost use Rattle.switch_output.specs.Sources.{AreOf};
ghost use Rattle.switch_output.specs.declared.run_file.RunFile.TheVariants as file;
ghost use Rattle.switch_output.specs.Refused.{write_refusal, WritesOne, WritesInTurn};
ghost use Rattle.switch_output.specs.OutletViews.{outlets_view, outlets_in};

use crate::outlets::Outlets;
use crate::refusal::WriteRefusal;
use crate::run_file::RunFile;
use edge_io::{Failed, Shelf};
use egress_capture::mirror::write_mirror;
use egress_capture::{PortFilter, filters_of, write_port};
use flow_dump::{write_journals, write_megaflows, write_rules};
use netflow_v5::write_netflow;
use rule_tables::VersionedRules;
use run_boards::Finished;
use run_case::{Case, RunData};
use spec_input::mirrors::Mirror;
use std::alloc::Global;

// What the files of a run are made of.
#[derive(Drop)]
struct Source<'a, C: Case> {
    run: &'a RunData<C>,
    rules: &'a VersionedRules,
    finished: &'a Finished<C>,
    filters: &'a [PortFilter],
}

// What a refusal in writing the file of this name is.
fn refused(name: String, failed: Failed) -> WriteRefusal
    ensures { result ≡ write_refusal name failed }
{
    match failed {
        Failed::Fault => WriteRefusal::WriteFault { name },
        Failed::OutOfMemory => WriteRefusal::OutOfMemory,
    }
}

// Writes a file of a run under this name.
fn write_named<C: Case, S: Shelf>(
    alloc: Global,
    shelf: &mut S,
    name: &str,
    file: RunFile<'_>,
    source: &Source<'_, C>,
) -> Result<(), Failed>
    requires in_use { S.in_use shelf.old ≡ Nothing }
    requires source { AreOf C.run source.now.finished.now source.now.rules.now source.now.filters.now }
    ensures { let bytes = bytes_of C.run source.now.finished.now file.entry in
        WritesFile S.Shelf shelf.old shelf.new (name.now, bytes) result }
{
    let (run, finished, filters) = (source.run, source.finished, source.filters);
    match file {
        RunFile::Port(port) => write_port(alloc, shelf, name, port, run, finished, filters),
        RunFile::Rules => write_rules(alloc, shelf, name, run, source.rules, finished),
        RunFile::Megaflows => write_megaflows(alloc, shelf, name, finished),
        RunFile::Journal => write_journals(alloc, shelf, name, finished),
        RunFile::Netflow => write_netflow(alloc, shelf, name, run, finished),
        RunFile::Mirror(_, mirror) => {
            write_mirror(alloc, shelf, name, mirror, run, finished, filters)
        }
    }
}

// Writes a file of a run.
fn write_one<C: Case, S: Shelf>(
    alloc: Global,
    shelf: &mut S,
    out: &str,
    file: RunFile<'_>,
    source: &Source<'_, C>,
) -> Result<(), WriteRefusal>
    requires in_use { S.in_use shelf.old ≡ Nothing }
    requires source { AreOf C.run source.now.finished.now source.now.rules.now source.now.filters.now }
    ensures { let file = run_file out.now C.run source.now.finished.now file.entry in
        WritesOne S.Shelf shelf.old shelf.new file result }
{
    let name = file.name(alloc, out)?;
    match write_named(alloc, shelf, name.as_str(), file, source) {
        Ok(()) => Ok(()),
        Err(failed) => Err(refused(name, failed)),
    }
}

// Writes the files of all ports, in the order of the words.
fn write_port_files<C: Case, S: Shelf>(
    alloc: Global,
    shelf: &mut S,
    out: &str,
    source: &Source<'_, C>,
) -> Result<(), WriteRefusal>
    requires in_use { S.in_use shelf.old ≡ Nothing }
    requires source { AreOf C.run source.now.finished.now source.now.rules.now source.now.filters.now }
    ensures { let files = map (port_file out.now C.run source.now.finished.now) C.run.ports in
        WritesInTurn S.Shelf shelf.old shelf.new files result }
{
    let ports = source.run.ports().as_slice();
    'files: for port in ports {
        write_one(alloc, shelf, out, RunFile::Port(*port), source)?;
    }
    Ok(())
}

// Writes the dumps of what the tables and the boards hold.
fn write_dumps<C: Case, S: Shelf>(
    alloc: Global,
    shelf: &mut S,
    out: &str,
    source: &Source<'_, C>,
) -> Result<(), WriteRefusal>
    requires in_use { S.in_use shelf.old ≡ Nothing }
    requires source { AreOf C.run source.now.finished.now source.now.rules.now source.now.filters.now }
    ensures { let files = map (run_file out.now C.run source.now.finished.now) (file.Rules ∷ file.Megaflows ∷ file.Journal ∷ []) in
        WritesInTurn S.Shelf shelf.old shelf.new files result }
{
    write_one(alloc, shelf, out, RunFile::Rules, source)?;
    write_one(alloc, shelf, out, RunFile::Megaflows, source)?;
    write_one(alloc, shelf, out, RunFile::Journal, source)
}

// Writes the flows, where they are asked for.
fn write_flows<C: Case, S: Shelf>(
    alloc: Global,
    shelf: &mut S,
    out: &str,
    netflow: bool,
    source: &Source<'_, C>,
) -> Result<(), WriteRefusal>
    requires in_use { S.in_use shelf.old ≡ Nothing }
    requires source { AreOf C.run source.now.finished.now source.now.rules.now source.now.filters.now }
    ensures { let files = netflow_files out.now netflow C.run source.now.finished.now in
        WritesInTurn S.Shelf shelf.old shelf.new files result }
{
    if netflow {
        write_one(alloc, shelf, out, RunFile::Netflow, source)
    } else {
        Ok(())
    }
}

// Writes the files of all mirrors, which are numbered from 1.
fn write_mirror_files<C: Case, S: Shelf>(
    alloc: Global,
    shelf: &mut S,
    out: &str,
    mirrors: &[Mirror],
    source: &Source<'_, C>,
) -> Result<(), WriteRefusal>
    requires in_use { S.in_use shelf.old ≡ Nothing }
    requires source { AreOf C.run source.now.finished.now source.now.rules.now source.now.filters.now }
    ensures { let files = mirror_files out.now C.run source.now.finished.now mirrors.now in
        WritesInTurn S.Shelf shelf.old shelf.new files result }
{
    'files: for (before, mirror) in mirrors.iter().enumerate() {
        write_one(
            alloc,
            shelf,
            out,
            RunFile::Mirror(before + 1, mirror),
            source,
        )?;
    }
    Ok(())
}

// Writes the files of all ports, in the order of the words, then the dumps, the flows, where they are asked for, and the files
// of the mirrors.
fn write_files<C: Case, S: Shelf>(
    alloc: Global,
    shelf: &mut S,
    outlets: Outlets<'_>,
    run: &RunData<C>,
    rules: &VersionedRules,
    finished: &Finished<C>,
) -> Result<(), WriteRefusal>
    requires in_use { S.in_use shelf.old ≡ Nothing }
    requires edits { rules.now ≡ history_of C.run.edits C.run.bundles }
    requires sound { IsTrue (list_all has_sound_actions C.run.edits) }
    ensures { let files = files_of (outlets_view outlets.entry) C.run finished.now in
        WritesInTurn S.Shelf shelf.old shelf.new files result }
{
    let out = outlets.out;
    let filters = filters_of(alloc, run, finished)?;
    let source = Source {
        run,
        rules,
        finished,
        filters: &filters,
    };
    write_port_files(alloc, shelf, out, &source)?;
    write_dumps(alloc, shelf, out, &source)?;
    write_flows(alloc, shelf, out, outlets.netflow, &source)?;
    write_mirror_files(alloc, shelf, out, outlets.mirrors, &source)
}

/// Writes what a run writes: where it has outlets, the files of its ports, its dumps, and what is asked for beside.
pub(crate) fn write_out<C: Case, S: Shelf>(
    alloc: Global,
    shelf: &mut S,
    outlets: Option<Outlets<'_>>,
    run: &RunData<C>,
    rules: &VersionedRules,
    finished: &Finished<C>,
) -> Result<(), WriteRefusal>
    requires in_use { S.in_use shelf.old ≡ Nothing }
    requires edits { rules.now ≡ history_of C.run.edits C.run.bundles }
    requires sound { IsTrue (list_all has_sound_actions C.run.edits) }
    ensures files { let files = output_of (outlets_in outlets.entry) C.run finished.now in
        WritesInTurn S.Shelf shelf.old shelf.new files result }
    ensures untouched { outlets_in outlets.entry ≡ None → (shelf.new ≡ shelf.old) × IsOk result }
{
    match outlets {
        Some(outlets) => write_files(alloc, shelf, outlets, run, rules, finished),
        None => Ok(()),
    }
}
