ghost use Rattle.std.specs.Prelude.{◌≡◌, IfOk};
ghost use Rattle.edge_io.specs.declared.outside.InUse.TheVariants.{Nothing};

use crate::failing::{UNWRITTEN, UNWRITTEN_OUTLETS, WEB_READING_CALLS};
use crate::made::MadeShelf;
use crate::refusals::{
    EDITS_FAULTS, MIRROR_FAULTS, REFUSED, STEPS_FAULTS, TRACE_FAULTS, WITH_EDITS, WITH_MIRRORS,
    WITH_STEPS, WITH_TRACE,
};
use crate::words::{BESIDE_WORDS, WORDS_REFUSED};
use edge_io::Shelf;
use edge_io::memory::{MemoryShelf, MemorySink};
use std::alloc::{AllocError, Global};
use std::process::Abort;
use std::sync::Wait;
use std::thread::Threads;
use switch_runs::files::{File, begin_with, files_of, only, shelf_of};
use switch_runs::known::{FORWARDED, MIRRORED_FLOW, WEB};
use switch_runs::running::{
    Ended, ends_as_told, first_that_differs, run_over, run_with_failing, status_of,
};
use switch_runs::texts::{RunText, Unread};

// The status of a run in which reading failed.
const READ_FAULT: u8 = 5;

// The status of a run in which writing failed.
const WRITE_FAULT: u8 = 6;

// A rule that sends the frames of port 1 to port 2.
const FORWARD: &str = "in_port=1,actions=2";

// The most bytes of a line.
const MOST_BYTES: usize = 4_096;

// The most bytes of a mirrors file.
const MOST_MIRRORS_BYTES: usize = 65_536;

// Asserts that the runs of a table end as they show, with what the other text says of all, and that it has so many.
fn assert_shown<R: Threads + Wait + Sync + Abort>(
    rt: &R,
    alloc: Global,
    table: &str,
    like: &str,
    count: usize,
) {
    let differs = first_that_differs(rt, alloc, table, like, count);
    assert!(rt; differs.is_none(), "{}", differs.unwrap_or(""));
}

#[test]
fn words_and_files_are_refused_by_their_first_fault(rt: HostRuntime) {
    assert_shown(&rt, rt.alloc(), WORDS_REFUSED, BESIDE_WORDS, 14);
    assert_shown(&rt, rt.alloc(), EDITS_FAULTS, WITH_EDITS, 18);
    assert_shown(&rt, rt.alloc(), STEPS_FAULTS, WITH_STEPS, 8);
    assert_shown(&rt, rt.alloc(), MIRROR_FAULTS, WITH_MIRRORS, 10);
    assert_shown(&rt, rt.alloc(), TRACE_FAULTS, WITH_TRACE, 10);
    assert_shown(&rt, rt.alloc(), REFUSED, "", 15);
}

// Whether a trace of one frame is refused without so many bytes at its end.
fn is_refused_cut<R: Threads + Wait + Sync>(
    rt: &R,
    alloc: Global,
    bytes: u32,
) -> Result<bool, Unread> {
    let trace = format!(in alloc; "trace a.pcap 1 -{bytes}")?;
    let told = "prints a.pcap: short record at 24";
    let run = format!(in alloc; "shows a record cut short\n{trace}\n{told}")?;
    ends_as_told(rt, alloc, RunText::new(run.as_str(), WITH_TRACE))
}

// The header of the file has 24 bytes, and the record 76.
#[test]
fn a_record_that_ends_anywhere_is_short(rt: HostRuntime) {
    for bytes in 1..76 {
        assert!(rt;
            is_refused_cut(&rt, rt.alloc(), bytes).unwrap_or(false),
            "{bytes}"
        );
    }
}

// What a run says before edits of a line of 4,096 bytes.
const LONGEST_EDITS: &str = "\
shows a line of 4,096 bytes in edits
edits ";

// And before edits of a longer line.
const LONGER_EDITS: &str = "\
shows a line of 4,097 bytes in edits
opened edits
status 7
prints limit: line 4096
edits ";

// And before steps of one.
const LONGER_STEPS: &str = "\
shows a line of 4,097 bytes in steps
status 7
prints limit: line 4096
steps ";

// And before mirrors of one.
const LONGER_MIRRORS: &str = "\
shows a line of 4,097 bytes in mirrors
status 7
prints limit: line 4096
mirrors ";

// And before mirrors that are too many bytes.
const TOO_MANY_BYTES: &str = "\
shows a mirrors file that is too long
status 7
prints limit: mirrors-bytes 65536
mirrors ";

// What comes before a line, and the line, which is so many bytes long by spaces at its end.
fn padded(alloc: Global, begin: &str, line: &str, bytes: usize) -> Result<String, AllocError> {
    let mut padded = format!(in alloc; "{begin}{line}")?;
    for _ in line.len()..bytes {
        padded.push(' ')?;
    }
    Ok(padded)
}

// Whether a run whose last line is so long by spaces ends as it says.
fn ends_with_line<R: Threads + Wait + Sync>(
    rt: &R,
    alloc: Global,
    begin: &str,
    line: &str,
    bytes: usize,
    like: &str,
) -> Result<bool, Unread> {
    let run = padded(alloc, begin, line, bytes)?;
    ends_as_told(rt, alloc, RunText::new(run.as_str(), like))
}

fn assert_ends_with_line<R: Threads + Wait + Sync + Abort>(
    rt: &R,
    alloc: Global,
    begin: &str,
    line: &str,
    bytes: usize,
    like: &str,
) {
    let told = ends_with_line(rt, alloc, begin, line, bytes, like);
    assert!(rt; told.unwrap_or(false), "{}", begin);
}

// A line has at most 4,096 bytes, and a mirrors file 65,536.
#[test]
fn lines_and_mirrors_files_have_their_limits(rt: HostRuntime) {
    let alloc = rt.alloc();
    assert_ends_with_line(&rt, alloc, LONGEST_EDITS, FORWARD, MOST_BYTES, FORWARDED);
    assert_ends_with_line(
        &rt,
        alloc,
        LONGER_EDITS,
        FORWARD,
        MOST_BYTES + 1,
        WITH_STEPS,
    );
    assert_ends_with_line(&rt, alloc, LONGER_STEPS, "edit", MOST_BYTES + 1, WITH_STEPS);
    let line = "select_all";
    assert_ends_with_line(
        &rt,
        alloc,
        LONGER_MIRRORS,
        line,
        MOST_BYTES + 1,
        WITH_MIRRORS,
    );
    assert_ends_with_line(
        &rt,
        alloc,
        TOO_MANY_BYTES,
        line,
        MOST_MIRRORS_BYTES,
        WITH_MIRRORS,
    );
}

#[test]
fn failed_writes_are_told(rt: HostRuntime) {
    assert_shown(&rt, rt.alloc(), UNWRITTEN, FORWARDED, 6);
    assert_shown(&rt, rt.alloc(), UNWRITTEN_OUTLETS, MIRRORED_FLOW, 4);
}

// The known runs that are made to fail, lent: where a text is named, all of it is written out for the proof.
fn web_run() -> RunText<'static> {
    RunText::new(WEB, "")
}

fn forwarded_run() -> RunText<'static> {
    RunText::new(FORWARDED, "")
}

// Whether the run `WEB` whose call of this number failed tells the file in use.
fn tells_file_in_use(
    alloc: Global,
    ended: &Ended,
    failing_call: u64,
    wanted: &[File],
) -> Result<bool, AllocError> {
    if failing_call <= WEB_READING_CALLS {
        return tells_fault(alloc, ended, READ_FAULT, "read", ended.last_opened());
    }
    tells_write_fault(alloc, ended, wanted, ended.shelf.made().len())
}

// Whether it tells that, and left the files before it whole.
fn is_told_and_left(alloc: Global, ended: &Ended, failing_call: u64) -> Result<bool, Unread> {
    let wanted = files_of(alloc, web_run())?;
    let told = tells_file_in_use(alloc, ended, failing_call, &wanted)?;
    Ok(told && begin_with(&wanted, ended.shelf.made()))
}

// Whether the run `WEB` whose call of this number fails tells the file in use, and leaves those before it whole.
fn is_told_and_cut<R: Threads + Wait + Sync>(
    rt: &R,
    alloc: Global,
    failing_call: u64,
) -> Result<bool, Unread> {
    let ended = run_with_failing(rt, alloc, web_run(), failing_call)?;
    let told = is_told_and_left(alloc, &ended, failing_call);
    drop(ended);
    told
}

// How many calls of the shelf the run `WEB` makes, or none where it doesn't tell what it is to.
fn calls_of_web<R: Threads + Wait + Sync>(rt: &R, alloc: Global) -> Result<u64, Unread> {
    let done = run_with_failing(rt, alloc, web_run(), 0)?;
    let told = done.has_told(alloc, web_run());
    let calls = done.shelf.calls();
    drop(done);
    Ok(if told? { calls } else { 0 })
}

// Whether a run tells that it failed in reading or writing a file.
fn tells_fault(
    alloc: Global,
    ended: &Ended,
    status: u8,
    kind: &str,
    name: Option<&str>,
) -> Result<bool, AllocError> {
    let Some(name) = name else {
        return Ok(false);
    };
    let text = format!(in alloc; "{kind} fault: {name}")?;
    ended.tells(alloc, status, text.as_str())
}

// Whether a run tells that it failed in writing the first file that isn't whole, or in closing the last one that is.
fn tells_write_fault(
    alloc: Global,
    ended: &Ended,
    wanted: &[File],
    whole: usize,
) -> Result<bool, AllocError> {
    let next = wanted.get(whole).map(|file| file.0.as_str());
    let last = wanted[..whole.min(wanted.len())]
        .last()
        .map(|file| file.0.as_str());
    Ok(
        tells_fault(alloc, ended, WRITE_FAULT, "write", next)?
            || tells_fault(alloc, ended, WRITE_FAULT, "write", last)?,
    )
}

#[test]
fn each_call_that_fails_is_told(rt: HostRuntime) {
    let alloc = rt.alloc();
    let calls = calls_of_web(&rt, alloc).unwrap_or(0);
    assert!(rt; calls > 0);
    for calls_before in 0..calls {
        let told = is_told_and_cut(&rt, alloc, calls_before + 1);
        assert!(rt; told.unwrap_or(false), "{calls_before}");
    }
}

// The shelf of the run `FORWARDED`.
fn shelf_of_one_frame(alloc: Global) -> Result<MemoryShelf, Unread>
    ensures { IfOk result (λ shelf. ⟦<MemoryShelf as Shelf>⟧.in_use shelf ≡ Nothing) }
{
    shelf_of(alloc, forwarded_run(), 0)
}

// Whether a run whose summary isn't printed ends as one whose writing failed, and leaves all its files and no text.
fn ends_without_summary<R: Threads + Wait + Sync>(
    rt: &R,
    alloc: Global,
    failing_print: u64,
) -> Result<bool, Unread> {
    let prints = only(alloc, failing_print)?;
    let shelf = shelf_of_one_frame(alloc)?;
    let ended = run_over(rt, alloc, forwarded_run().words(), shelf, prints)?;
    let told = ended.tells(alloc, WRITE_FAULT, "");
    let left = leaves_all(alloc, &ended);
    drop(ended);
    Ok(told? && left?)
}

// Whether a run left all files of `FORWARDED`.
fn leaves_all(alloc: Global, ended: &Ended) -> Result<bool, Unread> {
    let files = files_of(alloc, forwarded_run())?;
    Ok(ended.leaves(&files))
}

// How many calls the summary of a run takes.
fn calls_of_summary<R: Threads + Wait + Sync>(rt: &R, alloc: Global) -> Result<u64, Unread> {
    let done = run_with_failing(rt, alloc, forwarded_run(), 0)?;
    let calls = done.say.calls();
    drop(done);
    Ok(calls)
}

// Each call of the sink fails in turn.
#[test]
fn a_summary_that_is_not_printed_is_a_failed_write(rt: HostRuntime) {
    let alloc = rt.alloc();
    let calls = calls_of_summary(&rt, alloc).unwrap_or(0);
    assert!(rt; calls > 0);
    for calls_before in 0..calls {
        let told = ends_without_summary(&rt, alloc, calls_before + 1);
        assert!(rt; told.unwrap_or(false), "{calls_before}");
    }
}

// A sink that fails at its first call leaves the status of a refusal.
#[test]
fn failed_output_leaves_the_status(rt: HostRuntime) {
    let alloc = rt.alloc();
    let prints = only(alloc, 1).expect(&rt, "ample memory");
    let mut shelf = MadeShelf::new(Vec::new(alloc));
    let mut say = MemorySink::new(alloc, prints);
    let status = status_of(&rt, alloc, "edits out 1=a.pcap", &mut shelf, &mut say);
    drop(shelf);
    let is_silent = say.text().is_empty();
    drop(say);
    assert!(rt; status.expect(&rt, "ample memory") == 4);
    assert!(rt; is_silent);
}
