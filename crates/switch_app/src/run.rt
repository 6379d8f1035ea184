ghost use Rattle.std.specs.Prelude.{◌≡◌, ◌≢◌, ◌≤◌, ◌⊎◌, length, None, IsTrue, IsOk, OnOk, IfOk, IfErr};
ghost use Rattle.std.specs.List.{list_all};
ghost use Rattle.spec_tables.specs.Edits.{has_sound_actions};
ghost use Rattle.spec_input.specs.Steps.{most_steps};
ghost use Rattle.spec_run.specs.Summary.{summary};
ghost use Rattle.spec_run.specs.Verdict.{command_in, verdict};
ghost use Rattle.spec_run.specs.Journals.{AreJournals};
ghost use Rattle.spec_run.specs.Outputs.{outlets_of, output_of, has_steps, ran_of};
ghost use Rattle.spec_run.specs.Statuses.{usage_status, out_of_memory_status};
ghost use Rattle.edge_io.specs.declared.outside.InUse.TheVariants.{Nothing};
ghost use Rattle.command_words.specs.CommandViews.{texts, input_view, HasWorkers};
ghost use Rattle.switch_input.specs.Known.{IsKnown, NeedNoFile};
ghost use Rattle.switch_input.specs.InputViews.{run_view, IsWithinLimits};
ghost use Rattle.switch_output.specs.OutletViews.{outlets_in};
ghost use Rattle.switch_output.specs.declared.refusal.OutputRefusal.TheVariants.{Files};
ghost use Rattle.switch_output.specs.declared.refusal.WriteRefusal.TheVariants.{OutOfMemory};
ghost use Rattle.switch_output.specs.Put.{NamesNoFile, PutsWhole, CutsOut};
ghost use Rattle.switch_app.specs.Ends.{Ends, IsAllDone};
ghost use Rattle.switch_app.specs.Statuses.{IsStatusOfRefused, EndsAccepted};
ghost use Rattle.switch_app.specs.RunViews.{told_if, ByJournals, PutsRun, IsUntouched, Leaves};

use crate::decider::{decide_by_workers, run_schedule};
use crate::refusal::Refusal;
use crate::say::say_refusal;
use crate::status::status_of;
use edge_io::{Gate, Shelf, Sink};
use run_boards::Finished;
use run_case::{Case, RunData};
use spec_case::RunStep;
use spec_run::Ran;
use std::alloc::{AllocError, Global};
use std::marker::Brand;
use std::sync::Wait;
use std::thread::Threads;
use switch_input::refusals::DONE;
use switch_input::{Command, Input, Inputs, Mirror, read_inputs};
use switch_output::{Outlets, OutputRefusal, put_out};
use table_versions::rules::RunRules;

// What is written, where something is.
fn outlets_of<'m>(input: &'m Input<'_>, mirrors: &'m [Mirror]) -> Option<Outlets<'m>>
    ensures { outlets_in result ≡ outlets_of (input_view input.now) mirrors.now }
{
    match input {
        Input::Files(files) => Some(Outlets {
            out: files.out,
            netflow: files.netflow,
            mirrors,
        }),
        Input::Made { .. } => None,
    }
}

// What is told of given steps, where there are some.
fn told_of(input: &Input<'_>, ran: Ran) -> Option<Ran>
    ensures { result ≡ told_if (has_steps (input_view input.now)) ran }
{
    match input {
        Input::Files(files) => files.steps.map(|_| ran),
        Input::Made { .. } => None,
    }
}

// Decides all frames of a run without workers, as its schedule has it. Its bounds leave nothing to wait for, so that it
// returns is part of its proof.
fn decide_alone<C: Case + Send + Sync>(
    alloc: Global,
    run: &RunData<C>,
    rules: &RunRules<C>,
    command: &Command<'_>,
    steps: &[RunStep],
) -> Result<(Finished<C>, Option<Ran>), AllocError>
    requires sound { IsTrue (list_all has_sound_actions C.run.edits) }
    requires limit { command.now.flow_limit ≡ C.run.flow_limit }
    requires steps { steps.now ≡ C.run.steps }
    requires few { length steps.now ≤ most_steps }
    ensures journals { IfOk result (λ r. AreJournals 0 C.run r.0) }
    ensures told { IfOk result (λ r. r.1 ≡ ran_of (has_steps (input_view command.now.input)) C.run) }
{
    let (finished, ran) = run_schedule(alloc, run, rules, command.flow_limit, steps)?;
    Ok((finished, told_of(&command.input, ran)))
}

// Decides all frames of a run: in threads where there are workers, and else as its schedule has it.
fn decide<C: Case + Send + Sync, R: Threads + Wait + Sync, G: Gate + Sync>(
    rt: &R,
    alloc: Global,
    run: &RunData<C>,
    rules: &RunRules<C>,
    command: &Command<'_>,
    steps: &[RunStep],
    gate: &G,
) -> Result<(Finished<C>, Option<Ran>), AllocError>
    requires sound { IsTrue (list_all has_sound_actions C.run.edits) }
    requires limit { command.now.flow_limit ≡ C.run.flow_limit }
    requires steps { steps.now ≡ C.run.steps }
    requires few { length steps.now ≤ most_steps }
    requires workers { HasWorkers command.now }
    ensures journals { IfOk result (λ r. AreJournals command.now.workers C.run r.0) }
    ensures told { IfOk result (λ r. r.1 ≡ ran_of (has_steps (input_view command.now.input)) C.run) }
{
    if command.workers == 0 {
        return decide_alone(alloc, run, rules, command, steps);
    }
    let limit = command.flow_limit;
    let finished = decide_by_workers(rt, alloc, run, rules, limit, command.workers, gate)?;
    // The journals are whole.
    let _ = finished.boards();
    Ok((finished, None))
}

// Decides all frames of a run, and then tells what became of it: writes its files, where it has some, and prints its summary.
fn decide_and_put<
    C: Case + Send + Sync,
    R: Threads + Wait + Sync,
    S: Shelf,
    K: Sink,
    G: Gate + Sync,
>(
    rt: &R,
    alloc: Global,
    shelf: &mut S,
    say: &mut K,
    run: &RunData<C>,
    rules: &RunRules<C>,
    command: &Command<'_>,
    steps: &[RunStep],
    mirrors: &Vec<Mirror>,
    gate: &G,
) -> Result<(), OutputRefusal>
    requires in_use { S.in_use shelf.old ≡ Nothing }
    requires sound { IsTrue (list_all has_sound_actions C.run.edits) }
    requires limit { command.now.flow_limit ≡ C.run.flow_limit }
    requires steps { steps.now ≡ C.run.steps }
    requires few { length steps.now ≤ most_steps }
    requires workers { HasWorkers command.now }
    ensures ok { let input = input_view command.now.input in
        OnOk result (ByJournals command.now.workers C.run (λ journals.
        PutsWhole S.Shelf K.Sink shelf.old shelf.new say.old say.new
        (output_of (outlets_of input mirrors.now.items) C.run journals)
        (summary C.run journals (ran_of (has_steps input) C.run)))) }
    ensures err { let input = input_view command.now.input in
        IfErr result (λ r. (r ≡ Files OutOfMemory)
        × IsUntouched S.Shelf K.Sink shelf.old shelf.new say.old say.new
        ⊎ ByJournals command.now.workers C.run (λ journals.
        CutsOut S.Shelf K.Sink shelf.old shelf.new say.old say.new
        (output_of (outlets_of input mirrors.now.items) C.run journals)
        (summary C.run journals (ran_of (has_steps input) C.run)) r)) }
    ensures opened { IsTrue S.tells → (S.told shelf.new).opened ≡ (S.told shelf.old).opened }
    ensures untouched { outlets_of (input_view command.now.input) mirrors.now.items ≡ None
        → (shelf.new ≡ shelf.old) × IfErr result NamesNoFile }
{
    let (finished, told) = decide(rt, alloc, run, rules, command, steps, gate)?;
    let outlets = outlets_of(&command.input, mirrors);
    put_out(
        alloc,
        shelf,
        say,
        outlets,
        run,
        rules.store(),
        &finished,
        told,
    )
}

// Gives the inputs of a run its name, decides its frames, and tells what became of it.
fn decide_and_tell<
    C: Case + Send + Sync,
    R: Threads + Wait + Sync,
    S: Shelf,
    K: Sink,
    G: Gate + Sync,
>(
    rt: &R,
    alloc: Global,
    shelf: &mut S,
    say: &mut K,
    inputs: Inputs<'_>,
    gate: &G,
) -> Result<(), OutputRefusal>
    requires in_use { S.in_use shelf.old ≡ Nothing }
    requires run { C.run ≡ run_view inputs }
    requires within { IsWithinLimits inputs }
    ensures ok { OnOk result
        (PutsRun S.Shelf K.Sink inputs.entry C.run shelf.old shelf.new say.old say.new) }
    ensures err { let input = input_view inputs.entry.command.input in
        IfErr result (λ r. (r ≡ Files OutOfMemory)
        × IsUntouched S.Shelf K.Sink shelf.old shelf.new say.old say.new
        ⊎ ByJournals inputs.entry.command.workers C.run (λ journals.
        CutsOut S.Shelf K.Sink shelf.old shelf.new say.old say.new
        (output_of (outlets_of input inputs.entry.mirrors.items) C.run journals)
        (summary C.run journals (ran_of (has_steps input) C.run)) r)) }
    ensures opened { IsTrue S.tells → (S.told shelf.new).opened ≡ (S.told shelf.old).opened }

    // Where nothing is written, the shelf isn't touched.
    ensures untouched { outlets_of (input_view inputs.entry.command.input) inputs.entry.mirrors.items ≡ None
        → (shelf.new ≡ shelf.old) × IfErr result NamesNoFile }
{
    let Inputs {
        command,
        ports,
        script,
        rules,
        steps,
        mirrors,
        traces,
    } = inputs;
    let rules = RunRules::<C>::new(rules);
    let run = RunData::<C>::new(
        alloc,
        ports,
        rules.edits(),
        rules.versions(),
        script.syncs,
        traces,
    )?;
    decide_and_put(
        rt, alloc, shelf, say, &run, &rules, &command, &steps, &mirrors, gate,
    )
}

fn run<'a, R: Threads + Wait + Sync, S: Shelf, K: Sink, G: Gate + Sync>(
    rt: &R,
    alloc: Global,
    words: &'a [String],
    shelf: &mut S,
    say: &mut K,
    gate: &G,
) -> Result<(), Refusal<'a>>
    requires { S.in_use shelf.old ≡ Nothing }
    ensures ok { OnOk result
        (IsAllDone S.Shelf K.Sink (texts words.now) shelf.old shelf.new say.old say.new) }
    ensures err { IfErr result
        (Leaves S.Shelf K.Sink (texts words.now) shelf.old shelf.new say.old say.new) }
    ensures untouched { NeedNoFile (texts words.now) → shelf.new ≡ shelf.old }
{
    let inputs = read_inputs(alloc, words, shelf)?;
    decide_and_tell::<Brand, R, S, K, G>(rt, alloc, shelf, say, inputs, gate)?;
    Ok(())
}

fn end<R: Threads + Wait + Sync, S: Shelf, K: Sink, G: Gate + Sync>(
    rt: &R,
    alloc: Global,
    words: &[String],
    shelf: &mut S,
    say: &mut K,
    gate: &G,
) -> u8
    requires { S.in_use shelf.old ≡ Nothing }
    ensures ends { let words = texts words.now in
        Ends S.Shelf K.Sink words shelf.old shelf.new say.old say.new result }
    ensures untouched { NeedNoFile (texts words.now) → shelf.new ≡ shelf.old }
{
    match run(rt, alloc, words, shelf, say, gate) {
        Ok(()) => DONE,
        Err(refusal) => {
            say_refusal(say, &refusal);
            status_of(&refusal)
        }
    }
}

/// Runs the switch: reads what the words name, decides every frame once, writes a file for each port, the dumps of the run
/// and what is asked for beside them, and prints its summary.
///
/// The words are those after the program's name:
/// `[--workers N] [--steps FILE] [--flow-limit N] [--netflow] [--mirrors FILE] EDITS OUT PORT=FILE..`, or
/// `--generate N [--workers N] [--flow-limit N]`.
/// Each port may have a trace; where nothing stands after its `=` no frame comes in there. A port keeps at most as many
/// megaflows as the flow limit says, from 1 to 65,536, and 8,192 where none is given. With 1 to 16 workers threads decide
/// the frames, beside a steps file never. Other words end with status 2.
///
/// EDITS has a line for each edit of the tables, as ovs-ofctl(8) writes flows: a word (`add` where it is left out,
/// `modify`, `modify_strict`, `delete`, `delete_strict`), a match of fields with values and masks, a table, a priority and
/// a cookie, and actions, each of which is run. A line that is none ends with status 3 and its place, also where it has an
/// action or a field that is left out. No frame is decided between two edits that stand between the lines `begin` and
/// `commit`.
///
/// There may be lines `sync SECONDS` between the edits. In each trace the frames before the first that isn't before that
/// time are decided under no more than the edits before the line, and those from it on under no fewer. Which version it
/// was stands in the journal.
///
/// The steps file has a step of a board a line, as `rx 1`, which are taken first, where they are met; then the run goes on
/// to its end. With `--generate` the edits and the traces are those that the number makes, and nothing is written.
///
/// The mirrors file has a mirror a line, of the items `select_src_port=P`, `select_dst_port=P` and `select_all`
/// (ovs-vswitchd.conf.db(5), table Mirror). No frame is decided otherwise for a mirror or for `--netflow`.
///
/// `OUT.pN.pcap` has the frames that go out at port N, `OUT.rules` the rules with their counts, `OUT.megaflows` the
/// megaflows that stand in the caches, and `OUT.journal` the steps of each port's board, in the order in which they were
/// taken. `OUT.netflow` has the flows of the IPv4 packets that came in, as datagrams of NetFlow version 5, and `OUT.mK.pcap` the
/// frames that mirror K copies, each once.
///
/// The answer is the exit status; `spec_run` has the statuses, and the text that is printed with each. Of a text a prefix
/// may stand, where the sink fails or is out of memory.
///
/// The runtime and the gate are for workers. By its bounds the call may wait, so that it returns is no part of what is
/// proved of it. It is proved of each call that it makes without workers: of reading, of deciding, of writing and printing.
pub fn run_switch<R: Threads + Wait + Sync, S: Shelf, K: Sink, G: Gate + Sync>(
    rt: &R,
    alloc: Global,
    words: &[String],
    shelf: &mut S,
    say: &mut K,
    gate: &G,
) -> u8
    requires { S.in_use shelf.old ≡ Nothing }

    // What the status is, and what is written, printed and opened with it, and which counts rose.
    ensures ends { let words = texts words.now in
        Ends S.Shelf K.Sink words shelf.old shelf.new say.old say.new result }

    // Words that are refused end with their status, whatever the shelf is, unless memory runs out; others never do.
    ensures usage { IfErr (command_in (texts words.now))
        (λ _. (result ≡ usage_status) ⊎ (result ≡ out_of_memory_status)) }
    ensures taken { IsOk (command_in (texts words.now)) → result ≢ usage_status }

    // What is refused ends with the status of its refusal, and what is accepted is done, unless a count rises or memory runs
    // out.
    ensures refusal { IsKnown S.tells (texts words.now) → IfErr (verdict (texts words.now) (S.told shelf.old).holds)
        (λ r. IsStatusOfRefused r result) }
    ensures accepted { let words = texts words.now in
        IsKnown S.tells words → IsOk (verdict words (S.told shelf.old).holds)
        → EndsAccepted S.Shelf K.Sink shelf.old shelf.new say.old say.new result }

    // Where no file is needed, as the words are refused or have a number, none is opened or written.
    ensures untouched { NeedNoFile (texts words.now) → shelf.new ≡ shelf.old }
{
    end(rt, alloc, words, shelf, say, gate)
}
