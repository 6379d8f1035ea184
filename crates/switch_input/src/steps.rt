//! The steps file: its bytes, and the steps that they say.
ghost use Rattle.std.specs.Prelude.{◌≡◌, ◌≤◌, [], ◌∷◌, length, Ok, IsTrue, IfOk, IfErr, Some};
ghost use Rattle.edge_io.specs.declared.outside.InUse.TheVariants.{Nothing};
ghost use Rattle.spec_run.specs.Limits.{most_steps_bytes};
ghost use Rattle.spec_run.specs.Verdict.{steps_within, steps_in, given_names};
ghost use Rattle.spec_input.specs.Steps.{most_steps};
ghost use Rattle.command_words.specs.CommandViews.{text_view};
ghost use Rattle.switch_input.specs.Reading.{ReadsFiles};
ghost use Rattle.switch_input.specs.Refused.{IfReadFault, TakesWords, TellsNoFault, Explains, ending_of};

use crate::reading::read_file;
use crate::refusals::{InputFault, InputRefusal, MOST_STEPS_BYTES, refused_text};
use edge_io::Shelf;
use port_scripts::{RunStep, read_steps as read_step_script};
use spec_run::Quantity;
use std::alloc::Global;

// The steps of the bytes of a file, for a switch of these ports.
fn steps_of<'a>(
    alloc: Global,
    ports: &[u16],
    name: &'a str,
    bytes: &[u8],
) -> Result<Vec<RunStep>, InputRefusal<'a>>
    requires { length bytes.now ≤ most_steps_bytes }
    ensures ok { IfOk result (λ v. steps_within ports.now name.now bytes.now ≡ Ok v.items) }
    ensures few_steps { IfOk result (λ v. length v.items ≤ most_steps) }
    ensures err { IfErr result (Explains (steps_within ports.now name.now bytes.now)) }
    ensures no_fault { IfErr result TellsNoFault }
    ensures taken { IfErr result TakesWords }
{
    match read_step_script(alloc, bytes, ports) {
        Ok(steps) => Ok(steps),
        Err(fault) => Err(refused_text(name, fault)),
    }
}

// Reads the steps file of a name, for a switch of these ports.
fn read_steps_file<'a, S: Shelf>(
    alloc: Global,
    shelf: &mut S,
    ports: &[u16],
    name: &'a str,
) -> Result<Vec<RunStep>, InputRefusal<'a>>
    requires { S.in_use shelf.old ≡ Nothing }
    ensures in_use { S.in_use shelf.new ≡ Nothing }
    ensures reads { ReadsFiles S.Shelf shelf.old shelf.new (name.now ∷ []) (ending_of result) }
    ensures ok { IsTrue S.tells → IfOk result
        (λ v. steps_in (S.told shelf.old).holds ports.now (Some name.now) ≡ Ok v.items) }
    ensures few_steps { IfOk result (λ v. length v.items ≤ most_steps) }
    ensures err { IsTrue S.tells → IfErr result
        (Explains (steps_in (S.told shelf.old).holds ports.now (Some name.now))) }
    ensures fault { IfErr result (λ r. IfReadFault r (λ n. n ≡ name.now)) }
    ensures taken { IfErr result TakesWords }
{
    let bytes = read_file(alloc, shelf, name, MOST_STEPS_BYTES, Quantity::StepsBytes)?;
    steps_of(alloc, ports, name, &bytes)
}

/// Reads the steps file, where there is one, for a switch of these ports. Without one no step is given.
pub fn read_steps<'a, S: Shelf>(
    alloc: Global,
    shelf: &mut S,
    ports: &[u16],
    name: Option<&'a str>,
) -> Result<Vec<RunStep>, InputRefusal<'a>>
    requires { S.in_use shelf.old ≡ Nothing }
    ensures in_use { S.in_use shelf.new ≡ Nothing }
    ensures reads { ReadsFiles S.Shelf shelf.old shelf.new (given_names (text_view name.entry)) (ending_of result) }
    ensures ok { IsTrue S.tells → IfOk result
        (λ v. steps_in (S.told shelf.old).holds ports.now (text_view name.entry) ≡ Ok v.items) }
    ensures few_steps { IfOk result (λ v. length v.items ≤ most_steps) }
    ensures err { IsTrue S.tells → IfErr result
        (Explains (steps_in (S.told shelf.old).holds ports.now (text_view name.entry))) }
    ensures fault { IfErr result (λ r. IfReadFault r (λ n. text_view name.entry ≡ Some n)) }
    ensures taken { IfErr result TakesWords }
{
    match name {
        None => Ok(Vec::new(alloc)),
        Some(name) => read_steps_file(alloc, shelf, ports, name),
    }
}
