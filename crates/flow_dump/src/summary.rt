//! The summary of a run.
ghost use Rattle.std.specs.Prelude.{◌≡◌, ◌++◌, ℕ, take, IsTrue, IfOk, OnOk, OnErr, string_bytes};
ghost use Rattle.edge_io.specs.Counts.{HasCause, with_fault};
ghost use Rattle.spec_run.specs.Summary as summary;

use crate::frame_counts::count_all_frames;
use crate::step_counts::count_all_steps;
use edge_io::{Failed, Sink, say_all};
use run_boards::Finished;
use run_case::{Case, RunData};
use spec_run::Ran;
use std::alloc::{AllocError, Global};
use std::fmt::Write;

// How many frames came in, at all ports.
fn frame_count<C: Case>(run: &RunData<C>) -> u128
    ensures { result ≡ summary.frame_count C.run }
{
    let ports = run.ports();
    let mut frames = 0;
    'ports: for place in 0..ports.len() {
        frames += run.frames(ports.at(place)) as u128;
    }
    frames
}

// How many megaflows stand at the end, at all ports.
fn megaflow_count<C: Case>(finished: &Finished<C>) -> u128
    ensures { result ≡ summary.megaflow_count C.run finished.now }
{
    let of_ports = finished.boards();
    let mut megaflows = 0;
    'boards: for board in of_ports {
        megaflows += board.entries().len() as u128;
    }
    megaflows
}

// Adds the line of what was given.
fn push_run<C: Case>(text: &mut String, run: &RunData<C>) -> Result<(), AllocError>
    ensures { let line = summary.run_line C.run in
        OnOk result (string_bytes text.new ≡ string_bytes text.old ++ line) }
{
    let ports = run.ports().len();
    let frames = frame_count(run);
    let edits = run.edit_count();
    let blocks = run.blocks();
    writeln!(
        text,
        "ports={ports} frames={frames} edits={edits} blocks={blocks}"
    )
}

// Adds the line of looks and that of settles.
fn push_steps<C: Case>(text: &mut String, finished: &Finished<C>) -> Result<(), AllocError>
    ensures { let lines = summary.looks_line finished.now ++ summary.settles_line finished.now in
        OnOk result (string_bytes text.new ≡ string_bytes text.old ++ lines) }
{
    let counts = count_all_steps(finished);
    let (exact, mega, miss) = (counts.exact, counts.mega, counts.miss);
    let (installed, present, full) = (counts.installed, counts.present, counts.full);
    writeln!(text, "exact={exact} mega={mega} miss={miss}")?;
    writeln!(text, "installed={installed} present={present} full={full}")
}

// Adds the line of what was sent, and of what stands at the end.
fn push_sent<C: Case>(
    text: &mut String,
    run: &RunData<C>,
    finished: &Finished<C>,
) -> Result<(), AllocError>
    ensures { let line = summary.sent_line C.run finished.now in
        OnOk result (string_bytes text.new ≡ string_bytes text.old ++ line) }
{
    let counts = count_all_frames(run, finished);
    let (sent, dropped) = (counts.sent, counts.dropped);
    let entries = megaflow_count(finished);
    writeln!(text, "sent={sent} dropped={dropped} entries={entries}")
}

// Adds the line of a schedule, if one was given.
fn push_given(text: &mut String, ran: Option<Ran>) -> Result<(), AllocError>
    ensures { let line = summary.given_line ran in
        OnOk result (string_bytes text.new ≡ string_bytes text.old ++ line) }
{
    match ran {
        Some(Ran { steps, unmet }) => writeln!(text, "steps={steps} unmet={unmet}"),
        None => Ok(()),
    }
}

fn summary_text<C: Case>(
    alloc: Global,
    run: &RunData<C>,
    finished: &Finished<C>,
    ran: Option<Ran>,
) -> Result<String, AllocError>
    ensures { IfOk result (λ text. string_bytes text ≡ summary.summary C.run finished.now ran) }
{
    let mut text = String::new(alloc);
    push_run(&mut text, run)?;
    push_steps(&mut text, finished)?;
    push_sent(&mut text, run, finished)?;
    push_given(&mut text, ran)?;
    Ok(text)
}

/// Says the summary of a finished run, with a line for the steps where a schedule was given.
///
/// It makes the text first, so that where there is no memory for it nothing is said.
///
/// # Errors
///
/// - `Fault`: the sink failed, and its count rose.
/// - `OutOfMemory`: there was no memory for the text, or for the sink.
///
/// After an error a prefix of the text was said.
pub fn say_summary<C: Case, K: Sink>(
    alloc: Global,
    say: &mut K,
    run: &RunData<C>,
    finished: &Finished<C>,
    ran: Option<Ran>,
) -> Result<(), Failed>
    ensures ok { IsTrue K.tells →
        OnOk result (K.written say.new ≡ K.written say.old ++ summary.summary C.run finished.now ran) }
    ensures err { IsTrue K.tells → OnErr result ((n : ℕ) ×
        (K.written say.new ≡ K.written say.old ++ take n (summary.summary C.run finished.now ran))) }
    ensures cause { HasCause with_fault (K.faults say.old) (K.faults say.new) result }
{
    let text = summary_text(alloc, run, finished, ran)?;
    say_all(say, text.as_bytes())
}
