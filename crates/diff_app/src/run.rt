ghost use Rattle.std.specs.Prelude.{◌≡◌, ◌++◌, ◌⊎◌, ℕ, take, string_bytes, IsTrue, IsOk, OnOk, OnErr, IfOk, IfErr};
ghost use Rattle.spec_run.specs.Statuses.{done_status};
ghost use Rattle.edge_io.specs.declared.outside.InUse.TheVariants.{Nothing};
ghost use Rattle.edge_io.specs.Counts.{HasCause, with_fault};
ghost use Rattle.command_words.specs.CommandViews.{texts};
ghost use Rattle.spec_tools.specs.Progress.{IsUnfinished, cube_limit};
ghost use Rattle.spec_tools.specs.DiffVerdict.{old_switch, new_switch, verdict};
ghost use Rattle.spec_tools.specs.DiffStatuses.{differ_status, found_status};
ghost use Rattle.spec_tools.specs.DiffOutputs.{Tells};
ghost use Rattle.spec_tools.specs.DiffTexts.{text_of_lines};
ghost use Rattle.class_list.specs.LineViews.{lines_view};
ghost use Rattle.diff_app.specs.InputViews.{accepted_view, AreComparable};
ghost use Rattle.diff_app.specs.Ends.{Ends, IsCompared};
ghost use Rattle.diff_app.specs.Leaving.{Leaves};
ghost use Rattle.diff_app.specs.Statuses.{IsStatusOfRefused, EndsAccepted};

use crate::inputs::{Inputs, read_inputs};
use crate::lines::print_difference;
use crate::refusal::Refusal;
use crate::say::say_refusal;
use crate::status::{DIFFER, status_of};
use class_list::{Line, lines_of};
use edge_io::{Failed, Shelf, Sink, say_all};
use std::alloc::{AllocError, Global};
use switch_input::refusals::DONE;
use table_diff::{CompareError, compare};

/// The text of a difference, and the status that goes with it.
#[derive(Drop)]
struct Told {
    text: String,
    status: u8,
}

fn found_status(lines: &[Line<'_>]) -> u8
    ensures { result ≡ found_status (lines_view lines.now) }
{
    match lines {
        [] => DONE,
        [_, ..] => DIFFER,
    }
}

fn tell(alloc: Global, lines: &[Line<'_>], brief: bool) -> Result<Told, AllocError>
    ensures text { IfOk result (λ t. string_bytes t.text ≡ text_of_lines brief (lines_view lines.now)) }
    ensures status { IfOk result (λ t. t.status ≡ found_status (lines_view lines.now)) }
{
    let mut text = String::new(alloc);
    print_difference(&mut text, lines, brief)?;
    Ok(Told {
        text,
        status: found_status(lines),
    })
}

// Compares both versions.
fn find(alloc: Global, inputs: &Inputs) -> Result<Told, CompareError>
    requires { AreComparable inputs.now }
    ensures ok { IfOk result (λ t. Tells (accepted_view inputs.now) (string_bytes t.text) t.status) }
    ensures too_many { IfErr result (λ e. e ≡ CompareError.TooMany →
        IsUnfinished (old_switch (accepted_view inputs.now)) (new_switch (accepted_view inputs.now))
        inputs.now.ports.items cube_limit) }
{
    let ports = inputs.ports.as_slice();
    let classes = compare(alloc, &inputs.old, &inputs.new, ports)?;
    let lines = lines_of(alloc, &inputs.old, &inputs.new, ports, classes.as_slice())?;
    let told = tell(alloc, lines.as_slice(), inputs.brief)?;
    Ok(told)
}

fn print<K: Sink>(say: &mut K, told: &Told) -> Result<(), Failed>
    ensures ok { IsTrue K.tells
        → OnOk result (K.written say.new ≡ K.written say.old ++ string_bytes told.now.text) }
    ensures err { IsTrue K.tells → OnErr result
        ((n : ℕ) × (K.written say.new ≡ K.written say.old ++ take n (string_bytes told.now.text))) }
    ensures cause { HasCause with_fault (K.faults say.old) (K.faults say.new) result }
{
    say_all(say, told.text.as_bytes())
}

fn run<'a, S: Shelf, K: Sink>(
    alloc: Global,
    words: &'a [String],
    shelf: &mut S,
    say: &mut K,
) -> Result<u8, Refusal<'a>>
    requires { S.in_use shelf.old ≡ Nothing }
    ensures ok { IfOk result
        (IsCompared S.Shelf K.Sink (texts words.now) shelf.old shelf.new say.old say.new) }
    ensures status { IfOk result (λ s. (s ≡ done_status) ⊎ (s ≡ differ_status)) }
    ensures err { IfErr result
        (Leaves S.Shelf K.Sink (texts words.now) shelf.old shelf.new say.old say.new) }
{
    let inputs = read_inputs(alloc, words, shelf)?;
    let told = find(alloc, &inputs)?;
    print(say, &told)?;
    Ok(told.status)
}

fn end<S: Shelf, K: Sink>(alloc: Global, words: &[String], shelf: &mut S, say: &mut K) -> u8
    requires { S.in_use shelf.old ≡ Nothing }
    ensures { Ends S.Shelf K.Sink (texts words.now) shelf.old shelf.new say.old say.new result }
{
    match run(alloc, words, shelf, say) {
        Ok(status) => status,
        Err(refusal) => {
            say_refusal(say, &refusal);
            status_of(&refusal)
        }
    }
}

/// Compares two versions of the flow tables: reads two files of edits, and prints which packets the last versions of
/// the one and of the other treat differently.
///
/// The words are those after the program's name: `[--brief] OLD NEW PORT..`. OLD and NEW name the files, whose lines
/// are as `megaswitch` reads them; sync lines say nothing here. The ports of the switch are 1 to 32 numbers.
///
/// For each class of packets three lines are printed: the match, and what the old tables and the new ones do, where
/// no match before has the packet; of packets that both treat alike, and that are to be taken out of those that
/// follow, the match and a line with `=`. With `--brief` one line is printed for each pair of actions. A last line
/// counts classes and pairs. Nothing is printed where no packet is treated differently, and nothing is written to the
/// shelf.
///
/// The answer is the exit status: 0 where no packet is treated differently, 1 where some is. `spec_tools::run` has the
/// others, and the text that is printed with each. Of a text a prefix may be missing its end where the sink fails.
pub fn run_diff<S: Shelf, K: Sink>(
    alloc: Global,
    words: &[String],
    shelf: &mut S,
    say: &mut K,
) -> u8
    requires { S.in_use shelf.old ≡ Nothing }

    // What the status is, and what is printed and opened with it, and which counts rose.
    ensures ends { Ends S.Shelf K.Sink (texts words.now) shelf.old shelf.new say.old say.new result }

    // What is refused ends with the status of its refusal, and what is accepted is compared, unless a count rises,
    // memory runs out or there are more cubes than are looked into.
    ensures refusal { IsTrue S.tells → IfErr (verdict (texts words.now) (S.told shelf.old).holds)
        (λ r. IsStatusOfRefused r result) }
    ensures accepted { IsTrue S.tells → IsOk (verdict (texts words.now) (S.told shelf.old).holds)
        → EndsAccepted S.Shelf K.Sink shelf.old shelf.new say.old say.new result }
{
    end(alloc, words, shelf, say)
}
