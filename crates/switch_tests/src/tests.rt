use crate::caching::CACHING;
use crate::given::GIVEN;
use crate::limits::LIMITS;
use crate::matches::MATCHES;
use crate::outlets::{BESIDE_FORWARDED, BESIDE_WEB, OUTLETS};
use crate::rewrites::REWRITES;
use crate::rules::RULES;
use crate::schedules::SCHEDULES;
use crate::sending::{IN_NANOSECONDS, SENDING};
use crate::tags::TAGS;
use crate::workers::BY_WORKERS;
use edge_io::memory::MemoryShelf;
use std::alloc::{AllocError, Global};
use std::process::Abort;
use std::sync::Wait;
use std::thread::Threads;
use switch_runs::bytes::text_of;
use switch_runs::known::{FORWARDED, MIRRORED_FLOW, WEB};
use switch_runs::running::{
    DONE, first_that_differs, run_over, run_with_failing, sends_by_workers,
};
use switch_runs::texts::{RunText, Unread};

// The summary of what the number 7 makes.
const MADE: &str = "ports=4 frames=20000 edits=81 blocks=2|exact=0 mega=19760 miss=240|\
    installed=240 present=0 full=0|sent=10283 dropped=9717 entries=240";

// What of it is the same with any number of workers: its first line, and how many frames are sent and dropped.
const MADE_BEGIN: &str = "ports=4 frames=20000 edits=81 blocks=2";

const MADE_SENT: &str = "sent=10283 dropped=9717 ";

// The megaflow of a frame of 00:00:00:00:00:01 under rules of each bit of the source's address.
const EACH_BIT_CONSULTED: &str =
    "port=1 entry=1 version=48 packets=0 bytes=0 owed_packets=0 owed_bytes=0 \
    used=1.000000000 visits=1 match=in_port=1,dl_src=00:00:00:00:00:01,dl_type=0x88b5 actions=2";

// Asserts that the runs of a table end as they show, where they are otherwise like another run, and that it has so many.
fn assert_shown_like<R: Threads + Wait + Sync + Abort>(
    rt: &R,
    alloc: Global,
    table: &str,
    like: &str,
    count: usize,
) {
    let differs = first_that_differs(rt, alloc, table, like, count);
    assert!(rt; differs.is_none(), "{}", differs.unwrap_or(""));
}

fn assert_shown<R: Threads + Wait + Sync + Abort>(
    rt: &R,
    alloc: Global,
    table: &str,
    count: usize,
) {
    assert_shown_like(rt, alloc, table, "", count);
}

#[test]
fn frames_leave_as_rules_send_them(rt: HostRuntime) {
    assert_shown(&rt, rt.alloc(), FORWARDED, 1);
    assert_shown(&rt, rt.alloc(), SENDING, 7);
    assert_shown(&rt, rt.alloc(), IN_NANOSECONDS, 2);
}

#[test]
fn rules_are_told_with_their_counts(rt: HostRuntime) {
    assert_shown(&rt, rt.alloc(), RULES, 4);
}

#[test]
fn caches_decide_as_the_tables_do(rt: HostRuntime) {
    assert_shown(&rt, rt.alloc(), CACHING, 8);
}

#[test]
fn each_frame_is_sent_as_its_actions_rewrite_and_tag_it(rt: HostRuntime) {
    assert_shown(&rt, rt.alloc(), REWRITES, 8);
    assert_shown(&rt, rt.alloc(), TAGS, 5);
}

#[test]
fn frames_past_a_limit_are_dropped(rt: HostRuntime) {
    assert_shown(&rt, rt.alloc(), LIMITS, 6);
}

#[test]
fn megaflows_match_what_was_looked_at(rt: HostRuntime) {
    assert_shown(&rt, rt.alloc(), MATCHES, 3);
    assert_shown(&rt, rt.alloc(), WEB, 1);
}

#[test]
fn given_steps_are_taken_first(rt: HostRuntime) {
    assert_shown(&rt, rt.alloc(), GIVEN, 11);
    assert_shown(&rt, rt.alloc(), SCHEDULES, 4);
}

// A run with rules that each state another bit of an address, the last bit at the least priority.
fn rule_for_each_bit(alloc: Global) -> Result<String, AllocError> {
    let mut run = String::from_str(alloc, "edits ")?;
    for bit in 0..48 {
        let address = address_with(alloc, bit)?;
        let priority = bit + 1;
        let line = format!(in alloc; "priority={priority},dl_src={address}/{address},actions=2|")?;
        run.push_str(line.as_str())?;
    }
    Ok(run)
}

// The address of Ethernet whose only bit is this one, counted from its end.
fn address_with(alloc: Global, bit: u32) -> Result<String, AllocError> {
    let mut address = String::new(alloc);
    for place in 0..6 {
        let byte = if bit / 8 == 5 - place {
            1 << (bit % 8)
        } else {
            0
        };
        let separator = if place == 0 { "" } else { ":" };
        let text = format!(in alloc; "{separator}{byte:x}")?;
        address.push_str(text.as_str())?;
    }
    Ok(address)
}

// Whether a frame by which all rules of an address are told apart has a megaflow of all its bits.
fn is_told_apart_by_each_bit<R: Threads + Wait + Sync>(
    rt: &R,
    alloc: Global,
) -> Result<bool, Unread> {
    let run = rule_for_each_bit(alloc)?;
    let wanted = text_of(alloc, EACH_BIT_CONSULTED)?;
    let ended = run_with_failing(rt, alloc, RunText::new(run.as_str(), FORWARDED), 0)?;
    let found = ended.shelf.made().iter().any(|file| file.0.as_str() == "out.megaflows"
        && file.1 == wanted);
    let is_done = ended.status == DONE;
    drop(ended);
    Ok(is_done && found)
}

#[test]
fn a_megaflow_has_each_bit_by_which_rules_were_told_apart(rt: HostRuntime) {
    let told_apart = is_told_apart_by_each_bit(&rt, rt.alloc());
    assert!(rt; told_apart.unwrap_or(false));
}

#[test]
fn flows_and_copies_are_written_where_they_are_asked_for(rt: HostRuntime) {
    assert_shown(&rt, rt.alloc(), OUTLETS, 2);
    assert_shown(&rt, rt.alloc(), MIRRORED_FLOW, 1);
    assert_shown_like(&rt, rt.alloc(), BESIDE_FORWARDED, FORWARDED, 2);
    assert_shown_like(&rt, rt.alloc(), BESIDE_WEB, WEB, 1);
}

#[test]
fn four_workers_send_what_one_thread_does(rt: HostRuntime) {
    assert_shown(&rt, rt.alloc(), BY_WORKERS, 1);
    let text = RunText::new(BY_WORKERS, "");
    let sent = sends_by_workers(&rt, rt.alloc(), text, "4");
    assert!(rt; sent.unwrap_or(false), "{}", text.shows());
}

// Whether a run of what the number 7 makes prints its summary, and opens and writes no file.
fn sums_up_what_is_made<R: Threads + Wait + Sync>(
    rt: &R,
    alloc: Global,
) -> Result<bool, AllocError> {
    let shelf = MemoryShelf::new(alloc, Vec::new(alloc), Vec::new(alloc));
    let ended = run_over(rt, alloc, "--generate 7", shelf, Vec::new(alloc))?;
    let untouched = ended.shelf.calls() == 0;
    let told = ended.tells(alloc, DONE, MADE);
    drop(ended);
    Ok(untouched && told?)
}

#[test]
fn what_a_number_makes_is_the_same_each_time(rt: HostRuntime) {
    let alloc = rt.alloc();
    for time in ["first", "second"] {
        let same = sums_up_what_is_made(&rt, alloc).expect(&rt, "ample memory");
        assert!(rt; same, "{}", time);
    }
}

// Whether a run of what the number 7 makes, with so many workers, tells the same first line, and the same as sent and
// dropped, and opens and writes no file.
fn sends_what_is_made<R: Threads + Wait + Sync>(
    rt: &R,
    alloc: Global,
    workers: &str,
) -> Result<bool, AllocError> {
    let words = format!(in alloc; "--generate 7 --workers {workers}")?;
    let shelf = MemoryShelf::new(alloc, Vec::new(alloc), Vec::new(alloc));
    let ended = run_over(rt, alloc, words.as_str(), shelf, Vec::new(alloc))?;
    let sent = ended.status == DONE
        && ended.shelf.calls() == 0
        && has_line(ended.say.text(), 0, MADE_BEGIN)
        && has_line(ended.say.text(), 3, MADE_SENT);
    drop(ended);
    Ok(sent)
}

// Whether the line of a text at this place, from 0, begins so.
fn has_line(text: &[u8], at: usize, begin: &str) -> bool {
    text.split(|byte| *byte == b'\n')
        .nth(at)
        .is_some_and(|line| line.starts_with(begin.as_bytes()))
}

#[test]
fn few_workers_send_the_same_of_what_a_number_makes(rt: HostRuntime) {
    let alloc = rt.alloc();
    for workers in ["0", "1", "2"] {
        let same = sends_what_is_made(&rt, alloc, workers).expect(&rt, "ample memory");
        assert!(rt; same, "{}", workers);
    }
}

#[test]
fn many_workers_send_the_same_of_what_a_number_makes(rt: HostRuntime) {
    let alloc = rt.alloc();
    for workers in ["4", "16"] {
        let same = sends_what_is_made(&rt, alloc, workers).expect(&rt, "ample memory");
        assert!(rt; same, "{}", workers);
    }
}
