//! The mirrors file: its bytes, and the mirrors that they say.
ghost use Rattle.std.specs.Prelude.{◌≡◌, ◌≤◌, [], ◌∷◌, length, Ok, IsTrue, IfOk, IfErr, Some};
ghost use Rattle.edge_io.specs.declared.outside.InUse.TheVariants.{Nothing};
ghost use Rattle.spec_run.specs.Verdict.{mirrors_within, mirrors_in, given_names};
ghost use Rattle.spec_input.specs.Mirrors.{most_mirrors_bytes, most_mirrors};
ghost use Rattle.command_words.specs.CommandViews.{text_view};
ghost use Rattle.switch_input.specs.Reading.{ReadsFiles};
ghost use Rattle.switch_input.specs.Refused.{IfReadFault, TakesWords, TellsNoFault, Explains, ending_of};

use crate::reading::read_file;
use crate::refusals::{InputFault, InputRefusal, MOST_MIRRORS_BYTES, refused_text};
use edge_io::Shelf;
use port_scripts::{Mirror, read_mirrors as read_mirror_script};
use spec_run::Quantity;
use std::alloc::Global;

// The mirrors of the bytes of a file, for a switch of these ports.
fn mirrors_of<'a>(
    alloc: Global,
    ports: &[u16],
    name: &'a str,
    bytes: &[u8],
) -> Result<Vec<Mirror>, InputRefusal<'a>>
    requires { length bytes.now ≤ most_mirrors_bytes }
    ensures ok { IfOk result (λ v. mirrors_within ports.now name.now bytes.now ≡ Ok v.items) }
    ensures few_mirrors { IfOk result (λ v. length v.items ≤ most_mirrors) }
    ensures err { IfErr result (Explains (mirrors_within ports.now name.now bytes.now)) }
    ensures no_fault { IfErr result TellsNoFault }
    ensures taken { IfErr result TakesWords }
{
    match read_mirror_script(alloc, bytes, ports) {
        Ok(mirrors) => Ok(mirrors),
        Err(fault) => Err(refused_text(name, fault)),
    }
}

// Reads the mirrors file of a name, for a switch of these ports.
fn read_mirrors_file<'a, S: Shelf>(
    alloc: Global,
    shelf: &mut S,
    ports: &[u16],
    name: &'a str,
) -> Result<Vec<Mirror>, InputRefusal<'a>>
    requires { S.in_use shelf.old ≡ Nothing }
    ensures in_use { S.in_use shelf.new ≡ Nothing }
    ensures reads { ReadsFiles S.Shelf shelf.old shelf.new (name.now ∷ []) (ending_of result) }
    ensures ok { IsTrue S.tells → IfOk result
        (λ v. mirrors_in (S.told shelf.old).holds ports.now (Some name.now) ≡ Ok v.items) }
    ensures few_mirrors { IfOk result (λ v. length v.items ≤ most_mirrors) }
    ensures err { IsTrue S.tells → IfErr result
        (Explains (mirrors_in (S.told shelf.old).holds ports.now (Some name.now))) }
    ensures fault { IfErr result (λ r. IfReadFault r (λ n. n ≡ name.now)) }
    ensures taken { IfErr result TakesWords }
{
    let bytes = read_file(
        alloc,
        shelf,
        name,
        MOST_MIRRORS_BYTES,
        Quantity::MirrorsBytes,
    )?;
    mirrors_of(alloc, ports, name, &bytes)
}

/// Reads the mirrors file, where there is one, for a switch of these ports. Without one there is no mirror.
pub fn read_mirrors<'a, S: Shelf>(
    alloc: Global,
    shelf: &mut S,
    ports: &[u16],
    name: Option<&'a str>,
) -> Result<Vec<Mirror>, InputRefusal<'a>>
    requires { S.in_use shelf.old ≡ Nothing }
    ensures in_use { S.in_use shelf.new ≡ Nothing }
    ensures reads { ReadsFiles S.Shelf shelf.old shelf.new (given_names (text_view name.entry)) (ending_of result) }
    ensures ok { IsTrue S.tells → IfOk result
        (λ v. mirrors_in (S.told shelf.old).holds ports.now (text_view name.entry) ≡ Ok v.items) }
    ensures few_mirrors { IfOk result (λ v. length v.items ≤ most_mirrors) }
    ensures err { IsTrue S.tells → IfErr result
        (Explains (mirrors_in (S.told shelf.old).holds ports.now (text_view name.entry))) }
    ensures fault { IfErr result (λ r. IfReadFault r (λ n. text_view name.entry ≡ Some n)) }
    ensures taken { IfErr result TakesWords }
{
    match name {
        None => Ok(Vec::new(alloc)),
        Some(name) => read_mirrors_file(alloc, shelf, ports, name),
    }
}
