//! The texts of refusals. They are printed piece by piece, so that none takes memory.
ghost use Rattle.std.specs.Prelude.{◌≡◌, ◌++◌, IsTrue, codes};
ghost use Rattle.std.specs.Fmt.{decimal};
ghost use Rattle.spec_run.specs.Statuses.{Prints, line_reason, column_of, place_text, file_text, trace_text, limit_text, text_of as refusal_text, usage_text, write_fault_text, out_of_memory_text};
ghost use Rattle.switch_input.specs.Refused.{fault_view};
ghost use Rattle.switch_input.specs.Pieces.{joined, FailsAtMostOnce};
ghost use Rattle.switch_input.specs.Texts.{input_text};

use crate::refusals::limits::{limit_of, quantity_name};
use crate::refusals::refusal::{InputFault, InputRefusal};
use edge_io::{Sink, say_all};
use itoa::Buffer;
use spec_flow_text::TextFault;
use spec_input::FileFault;
use spec_pcap::PcapFault;
use spec_run::Quantity;

/// Prints texts, one after the other, up to the first at which the sink fails. It takes no memory.
pub fn say_pieces<K: Sink>(say: &mut K, pieces: &[&str])
    ensures text { IsTrue K.tells → Prints K.needs_memory (K.faults say.old) (K.faults say.new) (K.written say.old)
        (K.written say.new) (joined pieces.now) }
    ensures once { FailsAtMostOnce (K.faults say.old) (K.faults say.new) }
{
    'pieces: for piece in pieces {
        match say_all(say, piece.as_bytes()) {
            Ok(()) => {}
            Err(_) => return,
        }
    }
}

// Prints a line that ends with a number.
fn say_number<K: Sink>(say: &mut K, name: &str, what: &str, number: usize)
    ensures text { IsTrue K.tells
        → Prints K.needs_memory (K.faults say.old) (K.faults say.new) (K.written say.old) (K.written say.new)
        (name.now ++ (what.now ++ (decimal number ++ codes "\n"))) }
    ensures once { FailsAtMostOnce (K.faults say.old) (K.faults say.new) }
{
    let mut digits = Buffer::new();
    say_pieces(say, &[name, what, digits.format(number), "\n"]);
}

fn say_version<K: Sink>(say: &mut K, name: &str, major: u16, minor: u16)
    ensures text { IsTrue K.tells
        → Prints K.needs_memory (K.faults say.old) (K.faults say.new) (K.written say.old) (K.written say.new)
        (trace_text name.now (PcapFault.Version major minor)) }
    ensures once { FailsAtMostOnce (K.faults say.old) (K.faults say.new) }
{
    let mut first = Buffer::new();
    let mut second = Buffer::new();
    let pieces = [
        name,
        ": version ",
        first.format(major),
        ".",
        second.format(minor),
        "\n",
    ];
    say_pieces(say, &pieces);
}

fn say_trace<K: Sink>(say: &mut K, name: &str, fault: PcapFault)
    ensures text { IsTrue K.tells → Prints K.needs_memory (K.faults say.old) (K.faults say.new) (K.written say.old)
        (K.written say.new) (trace_text name.now fault) }
    ensures once { FailsAtMostOnce (K.faults say.old) (K.faults say.new) }
{
    match fault {
        PcapFault::ShortHeader => say_pieces(say, &[name, ": short header\n"]),
        PcapFault::Magic => say_pieces(say, &[name, ": magic\n"]),
        PcapFault::Version { major, minor } => say_version(say, name, major, minor),
        PcapFault::LinkType(number) => say_number(say, name, ": link type ", number as usize),
        PcapFault::ShortRecord { at } => say_number(say, name, ": short record at ", at),
        PcapFault::TooLong { at, .. } => say_number(say, name, ": too long at ", at),
        PcapFault::Fraction { at } => say_number(say, name, ": fraction at ", at),
        PcapFault::TooManyFrames => say_pieces(say, &[name, ": too many frames\n"]),
        PcapFault::OutOfMemory => say_pieces(say, &[name, ": out of memory\n"]),
    }
}

fn say_limit<K: Sink>(say: &mut K, quantity: Quantity)
    ensures text { IsTrue K.tells → Prints K.needs_memory (K.faults say.old) (K.faults say.new) (K.written say.old)
        (K.written say.new) (limit_text quantity) }
    ensures once { FailsAtMostOnce (K.faults say.old) (K.faults say.new) }
{
    let mut digits = Buffer::new();
    let pieces = [
        "limit: ",
        quantity_name(quantity),
        " ",
        digits.format(limit_of(quantity)),
        "\n",
    ];
    say_pieces(say, &pieces);
}

// What is wrong with a line of text.
fn line_reason(why: TextFault) -> &'static str
    ensures { result.now ≡ line_reason why }
{
    match why {
        TextFault::Syntax { .. } => "syntax",
        TextFault::UnknownName { .. } => "unknown name",
        TextFault::Unsupported { .. } => "unsupported",
        TextFault::BadValue { .. } => "bad value",
        TextFault::Repeated { .. } => "repeated",
        TextFault::TooManyActions => "too many actions",
        TextFault::OutOfMemory => "out of memory",
    }
}

// The column at which it is found.
fn column_of(why: TextFault) -> u32
    ensures { result ≡ column_of why }
{
    match why {
        TextFault::Syntax { col }
        | TextFault::UnknownName { col }
        | TextFault::Unsupported { col }
        | TextFault::BadValue { col }
        | TextFault::Repeated { col } => col,
        TextFault::TooManyActions | TextFault::OutOfMemory => 1,
    }
}

// Prints a place in a file, and what is wrong there.
fn say_place<K: Sink>(say: &mut K, name: &str, line: u32, column: u32, reason: &str)
    ensures text { IsTrue K.tells
        → Prints K.needs_memory (K.faults say.old) (K.faults say.new) (K.written say.old) (K.written say.new)
        (place_text name.now line column reason.now) }
    ensures once { FailsAtMostOnce (K.faults say.old) (K.faults say.new) }
{
    let mut first = Buffer::new();
    let mut second = Buffer::new();
    let pieces = [
        name,
        ":",
        first.format(line),
        ":",
        second.format(column),
        ": ",
        reason,
        "\n",
    ];
    say_pieces(say, &pieces);
}

// Prints what is wrong with a line of text, and where.
fn say_line<K: Sink>(say: &mut K, name: &str, line: u32, why: TextFault)
    ensures text { IsTrue K.tells
        → Prints K.needs_memory (K.faults say.old) (K.faults say.new) (K.written say.old) (K.written say.new)
        (place_text name.now line (column_of why) (line_reason why)) }
    ensures once { FailsAtMostOnce (K.faults say.old) (K.faults say.new) }
{
    say_place(say, name, line, column_of(why), line_reason(why));
}

// Prints what is wrong with a file of lines.
fn say_text<K: Sink>(say: &mut K, name: &str, fault: FileFault)
    ensures text { IsTrue K.tells → Prints K.needs_memory (K.faults say.old) (K.faults say.new) (K.written say.old)
        (K.written say.new) (file_text name.now fault) }
    ensures once { FailsAtMostOnce (K.faults say.old) (K.faults say.new) }
{
    match fault {
        FileFault::Line { line, why } => say_line(say, name, line, why),
        FileFault::SyncOrder { line } => say_place(say, name, line, 1, "sync order"),
        FileFault::LineTooLong => say_limit(say, Quantity::Line),
        FileFault::TooManyEdits => say_limit(say, Quantity::Edits),
        FileFault::TooManySyncs => say_limit(say, Quantity::Syncs),
        FileFault::TooManySteps => say_limit(say, Quantity::Steps),
        FileFault::TooManyMirrors => say_limit(say, Quantity::Mirrors),
        FileFault::OutOfMemory => say_out_of_memory(say),
    }
}

// Prints which words the program takes.
fn say_usage<K: Sink>(say: &mut K)
    ensures text { IsTrue K.tells → Prints K.needs_memory (K.faults say.old) (K.faults say.new)
        (K.written say.old) (K.written say.new) usage_text }
    ensures once { FailsAtMostOnce (K.faults say.old) (K.faults say.new) }
{
    let pieces = [
        "usage: megaswitch [--workers N] [--steps FILE] [--flow-limit N] ",
        "[--netflow] [--mirrors FILE] EDITS OUT PORT=FILE...\n",
    ];
    say_pieces(say, &pieces);
}

fn say_fault<K: Sink>(say: &mut K, fault: &InputFault<'_>)
    ensures text { IsTrue K.tells → Prints K.needs_memory (K.faults say.old) (K.faults say.new) (K.written say.old)
        (K.written say.new) (refusal_text (fault_view fault.now)) }
    ensures once { FailsAtMostOnce (K.faults say.old) (K.faults say.new) }
{
    match fault {
        InputFault::Usage => say_usage(say),
        InputFault::Text { name, fault } => say_text(say, name, *fault),
        InputFault::Trace { name, fault } => say_trace(say, name, *fault),
        InputFault::Limit(quantity) => say_limit(say, *quantity),
    }
}

/// Prints why the words and the files were not read.
pub fn say_input_refusal<K: Sink>(say: &mut K, refusal: &InputRefusal<'_>)
    ensures text { IsTrue K.tells → Prints K.needs_memory (K.faults say.old) (K.faults say.new) (K.written say.old)
        (K.written say.new) (input_text refusal.now) }
    ensures once { FailsAtMostOnce (K.faults say.old) (K.faults say.new) }
{
    match refusal {
        InputRefusal::Input(fault) => say_fault(say, fault),
        InputRefusal::ReadFault { name } => say_pieces(say, &["read fault: ", name, "\n"]),
        InputRefusal::OutOfMemory => say_out_of_memory(say),
    }
}

/// Prints that writing the file of this name failed.
pub fn say_write_fault<K: Sink>(say: &mut K, name: &str)
    ensures text { IsTrue K.tells → Prints K.needs_memory (K.faults say.old) (K.faults say.new) (K.written say.old)
        (K.written say.new) (write_fault_text name.now) }
    ensures once { FailsAtMostOnce (K.faults say.old) (K.faults say.new) }
{
    say_pieces(say, &["write fault: ", name, "\n"]);
}

/// Prints that memory ran out. It takes none.
pub fn say_out_of_memory<K: Sink>(say: &mut K)
    ensures text { IsTrue K.tells → Prints K.needs_memory (K.faults say.old) (K.faults say.new) (K.written say.old)
        (K.written say.new) out_of_memory_text }
    ensures once { FailsAtMostOnce (K.faults say.old) (K.faults say.new) }
{
    say_pieces(say, &["out of memory\n"]);
}
