ghost use Rattle.std.specs.Prelude.{◌≡◌, ◌≢◌, ◌++◌, ◌⊎◌, ℕ, take, string_bytes, IsTrue, IsOk, OnOk, OnErr, IfOk, IfErr};
ghost use Rattle.spec_run.specs.Statuses.{usage_status, out_of_memory_status};
ghost use Rattle.edge_io.specs.declared.outside.InUse.TheVariants.{Nothing};
ghost use Rattle.edge_io.specs.Counts.{HasCause, with_fault};
ghost use Rattle.command_words.specs.CommandViews.{texts};
ghost use Rattle.spec_tools.specs.TraceVerdict.{command_in, verdict};
ghost use Rattle.spec_tools.specs.TraceOutputs.{text_for};
ghost use Rattle.trace_app.specs.Known.{IsKnown};
ghost use Rattle.trace_app.specs.InputViews.{accepted_view, IsTraceable};
ghost use Rattle.trace_app.specs.Ends.{Ends, IsTraced};
ghost use Rattle.trace_app.specs.Statuses.{IsStatusOfRefused, EndsAccepted};
ghost use Rattle.trace_app.specs.Leaving.{Leaves};

use crate::inputs::{Inputs, read_inputs};
use crate::refusal::Refusal;
use crate::say::say_refusal;
use crate::status::status_of;
use action_text::translation_is_within_fields;
use edge_io::{Failed, Shelf, Sink, say_all};
use ofp_trace::lines::print_trace;
use ofp_trace::trace;
use std::alloc::{AllocError, Global};
use switch_input::refusals::DONE;
use tuple_classifier::Tables;

// The text of the trace.
fn text_of(alloc: Global, inputs: &Inputs) -> Result<String, AllocError>
    requires { IsTraceable inputs.now }
    ensures { IfOk result (λ text. string_bytes text ≡ text_for (accepted_view inputs.now)) }
{
    translation_is_within_fields();
    let tables = Tables::last(alloc, &inputs.rules)?;
    let traced = trace(alloc, &tables, &inputs.ports, &inputs.key)?;
    let mut text = String::new(alloc);
    print_trace(&mut text, &inputs.rules, &inputs.key, &traced)?;
    Ok(text)
}

// Traces, and prints the text of the trace.
fn trace_and_print<K: Sink>(alloc: Global, say: &mut K, inputs: &Inputs) -> Result<(), Failed>
    requires { IsTraceable inputs.now }
    ensures ok { IsTrue K.tells
        → OnOk result (K.written say.new ≡ K.written say.old ++ text_for (accepted_view inputs.now)) }
    ensures err { IsTrue K.tells → OnErr result
        ((n : ℕ) × (K.written say.new ≡ K.written say.old ++ take n (text_for (accepted_view inputs.now)))) }
    ensures cause { HasCause with_fault (K.faults say.old) (K.faults say.new) result }
{
    let text = text_of(alloc, inputs)?;
    say_all(say, text.as_bytes())
}

fn run<'a, S: Shelf, K: Sink>(
    alloc: Global,
    words: &'a [String],
    shelf: &mut S,
    say: &mut K,
) -> Result<(), Refusal<'a>>
    requires { S.in_use shelf.old ≡ Nothing }
    ensures ok { OnOk result
        (IsTraced S.Shelf K.Sink (texts words.now) shelf.old shelf.new say.old say.new) }
    ensures err { IfErr result
        (Leaves S.Shelf K.Sink (texts words.now) shelf.old shelf.new say.old say.new) }
{
    let inputs = read_inputs(alloc, words, shelf)?;
    trace_and_print(alloc, say, &inputs)?;
    Ok(())
}

fn end<S: Shelf, K: Sink>(alloc: Global, words: &[String], shelf: &mut S, say: &mut K) -> u8
    requires { S.in_use shelf.old ≡ Nothing }
    ensures { Ends S.Shelf K.Sink (texts words.now) shelf.old shelf.new say.old say.new result }
{
    match run(alloc, words, shelf, say) {
        Ok(()) => DONE,
        Err(refusal) => {
            say_refusal(say, &refusal);
            status_of(&refusal)
        }
    }
}

/// Traces a flow: reads a file of edits, and prints what the tables that all of them make do to a packet of the flow.
///
/// The words are those after the program's name: `EDITS FLOW PORTS`. EDITS names the file, whose lines are as `megaswitch`
/// reads them; its sync lines say nothing here. FLOW is a match as it stands after the word `delete` of such a line: the
/// packet has the bits that it states, and 0 elsewhere, and its port has to be one of PORTS, which are 1 to 32 numbers with
/// commas between them.
///
/// A line is printed for the packet's key, one for each lookup with the rule that won or that none did, one for the key
/// at the end, and two for the megaflow and the datapath actions that come of it. Nothing is written to the shelf.
///
/// The answer is the exit status; `spec_tools` has the statuses, and the text that is printed with each. Of a text a prefix
/// may be missing its end where the sink fails.
pub fn run_trace<S: Shelf, K: Sink>(
    alloc: Global,
    words: &[String],
    shelf: &mut S,
    say: &mut K,
) -> u8
    requires { S.in_use shelf.old ≡ Nothing }

    // What the status is, and what is printed and opened with it, and which counts rose.
    ensures ends { Ends S.Shelf K.Sink (texts words.now) shelf.old shelf.new say.old say.new result }

    // Words that are refused end with their status, whatever the shelf is, unless memory runs out; others never do.
    ensures usage { IfErr (command_in (texts words.now))
        (λ _. (result ≡ usage_status) ⊎ (result ≡ out_of_memory_status)) }
    ensures taken { IsOk (command_in (texts words.now)) → result ≢ usage_status }

    // What is refused ends with the status of its refusal, and what is accepted is traced, unless a count rises or memory
    // runs out.
    ensures refusal { IsKnown S.tells (texts words.now) → IfErr (verdict (texts words.now) (S.told shelf.old).holds)
        (λ r. IsStatusOfRefused r result) }
    ensures accepted { let words = texts words.now in
        IsKnown S.tells words → IsOk (verdict words (S.told shelf.old).holds)
        → EndsAccepted S.Shelf K.Sink shelf.old shelf.new say.old say.new result }
{
    end(alloc, words, shelf, say)
}
