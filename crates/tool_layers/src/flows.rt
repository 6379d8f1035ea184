//! `flows FILE`: the flows of a file of edits as they are printed, a line for each edit, its match and its actions, in the
//! one form of each (`match_text`, `action_text`). Each line of the file is an edit or blank, and ends in a line feed.
ghost use Rattle.std.specs.Prelude.{IsTrue};
ghost use Rattle.spec_tables.specs.Edits.{has_sound_actions};

use crate::files::read_edits_bytes;
use action_text::print_actions;
use anyhow::{Result, anyhow, bail};
use edit_script::{Edit, MOST_BYTES, read_edit};
use field_text::{first_word, uncommented};
use match_text::print_match;
use std::alloc::{AllocError, Global};
use text_numbers::cut_at;

/// Adds the line of an edit.
fn print_edit(edit: &Edit, text: &mut String) -> Result<(), AllocError>
    requires { IsTrue (has_sound_actions edit.now) }
{
    print_match(&edit.matching, text)?;
    text.push_str(" actions=")?;
    print_actions(edit.actions.as_slice(), text)?;
    text.push('\n')
}

/// Adds the line of the edit that a line says, if it says one.
fn print_line(alloc: Global, line: &[u8], text: &mut String) -> Result<()> {
    if line.len() > MOST_BYTES {
        bail!("a line is too long");
    }
    if first_word(uncommented(line)).text.is_empty() {
        return Ok(());
    }
    let edit = read_edit(alloc, line).map_err(|_| anyhow!("a line is no edit"))?;
    let printed = print_edit(&edit, text);
    drop(edit);
    Ok(printed?)
}

/// Adds the lines of the edits of lines.
fn print_lines(alloc: Global, bytes: &[u8], text: &mut String) -> Result<()> {
    let mut rest = bytes;
    'lines: while let Some((line, more)) = cut_at(rest, b'\n') {
        print_line(alloc, line, text)?;
        rest = more;
    }
    Ok(())
}

/// The lines of a file.
pub fn answer(rt: &HostRuntime, words: &[String]) -> Result<String> {
    let [name] = words else {
        bail!("use: tool_layers flows FILE");
    };
    let bytes = read_edits_bytes(rt, name)?;
    let mut text = String::new(rt.alloc());
    print_lines(rt.alloc(), &bytes, &mut text)?;
    Ok(text)
}
