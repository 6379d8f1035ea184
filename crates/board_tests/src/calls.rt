//! Calls of a board, and what they are to answer.
ghost use Rattle.std.specs.Prelude.{◌≡◌, ◌≤◌, IsTrue, IfOk};
ghost use Rattle.std.specs.List.{list_all};
ghost use Rattle.ovs_fields.specs.Packed.{numbers};
ghost use Rattle.spec_tables.specs.Edits.{has_sound_actions};
ghost use Rattle.pmd_board.specs.BoardView.{state_of};
ghost use Rattle.run_case.specs.Places.{HasPort, HasPlace};
ghost use Rattle.spec_board.specs.Effects.{is_among, key_of_entry};
ghost use Rattle.spec_board.specs.Results.{entry_of};
ghost use Rattle.spec_case.specs.Run.{last_version};

use crate::closing::closes;
use crate::rows::PORT;
use ovs_fields::Key;
use pipe_model::SpareLists;
use pmd_board::{
    BeginFault, Board, EndFault, LookFault, Looked, OpenFault, PutDone, PutFault, SettleFault,
    Settled, Xlated,
};
use port_caches::stats::Counts;
use run_case::{Case, RunData};
use std::alloc::{AllocError, Global};
use std::mem;
use table_versions::{RunTables, Tables};

/// A call of a board, with what it is to answer.
#[derive(Clone, Copy)]
pub enum Call {
    /// The block is opened.
    Open(u32, Result<(), OpenFault>),
    /// The frame of the place is looked up.
    Look(u32, Result<Looked, LookFault>),
    /// The frame of the place is settled, by its translation under the version.
    Settle(u32, u32, Result<Done, SettleFault>),
    /// A sweep begins at the version.
    Begin(u32, Result<(), BeginFault>),
    /// The entry is put with the translation of its key under the version. Where no entry is live, the key is all zeros.
    Put(u32, u32, Result<PutDone, PutFault>),
    /// The sweep ends.
    End(Result<(), EndFault>),
    /// The entry decided so much, and owes so much of it.
    Entry(u32, Counts, Counts),
    /// No entry has the number.
    NoEntry(u32),
    /// The rule was credited with so much.
    Total(u32, Counts),
    /// The least number of an entry above this one.
    After(u32, Option<u32>),
    /// At the place of the order of masks stands that of the entry, with so many hits.
    Rank(u32, Option<(u32, u64)>),
    /// A new board with this flow limit takes the board's place.
    Renew(u32),
    /// The board is handed to the end of a phase of the block, which says whether it fits. What it leaves takes the
    /// board's place.
    Close(u32, bool),
}

/// What a settle did, beside deciding a frame.
#[derive(Clone, Copy)]
pub enum Done {
    Present(u32),
    Full,
    /// The number of the new entry, and that of the entry that was dropped, if one was.
    Installed(u32, Option<u32>),
}

/// The translation of a packet of a key under a version.
fn translation<C: Case, T: RunTables<C>>(
    alloc: Global,
    run: &RunData<C>,
    store: T::Store,
    version: u32,
    key: &Key,
) -> Result<Xlated<C>, AllocError>
    requires sound { IsTrue (list_all has_sound_actions C.run.edits) }
    requires made { version ≤ last_version C.run }
    ensures { IfOk result (λ x. x.key ≡ numbers key.now) }
{
    let mut tables = Tables::<C, T>::new(alloc, store);
    let made = translated(alloc, run, &mut tables, version, key);
    drop(tables);
    made
}

/// The same by tables, which follow to the version.
fn translated<C: Case, T: RunTables<C>>(
    alloc: Global,
    run: &RunData<C>,
    tables: &mut Tables<C, T>,
    version: u32,
    key: &Key,
) -> Result<Xlated<C>, AllocError>
    requires sound { IsTrue (list_all has_sound_actions C.run.edits) }
    requires made { version ≤ last_version C.run }
    requires order { tables.old ≤ version }
    ensures { IfOk result (λ x. x.key ≡ numbers key.now) }
{
    tables.follow(version)?;
    tables.translate(run, key, SpareLists::new(alloc))
}

fn has_frame<C: Case>(run: &RunData<C>, port: u16, place: u32) -> bool
    requires { HasPort C.run.ports port }
    ensures { IsTrue result → HasPlace C.run port place }
{
    place >= 1 && place <= run.frames(port)
}

fn looks<C: Case>(
    run: &RunData<C>,
    board: &mut Board<C>,
    place: u32,
    answer: Result<Looked, LookFault>,
) -> bool {
    let port = board.port();
    if !has_frame(run, port, place) {
        return false;
    }
    board.look(&run.keyed(port, place)) == answer
}

/// Whether the last step of a board is a settle that did this.
fn did<C: Case>(board: &Board<C>, done: Done) -> bool {
    match (board.last_settled(), done) {
        (Some(Settled::Present(entry)), Done::Present(number)) => *entry == number,
        (Some(Settled::Full), Done::Full) => true,
        (Some(Settled::Installed { no, dropped }), Done::Installed(number, gone)) => {
            *no == number && dropped.as_slice() == gone.as_slice()
        }
        _ => false,
    }
}

fn settles<C: Case, T: RunTables<C>>(
    alloc: Global,
    run: &RunData<C>,
    store: T::Store,
    board: &mut Board<C>,
    place: u32,
    version: u32,
    answer: Result<Done, SettleFault>,
) -> Result<bool, AllocError>
    requires { IsTrue (list_all has_sound_actions C.run.edits) }
{
    let port = board.port();
    if !has_frame(run, port, place) || version > run.last_version() {
        return Ok(false);
    }
    let at = run.keyed(port, place);
    let made = translation::<C, T>(alloc, run, store, version, &at.key)?;
    Ok(match (board.settle(&at, made), answer) {
        (Ok(()), Ok(done)) => did(board, done),
        (Err(fault), Err(expected)) => fault == expected,
        _ => false,
    })
}

/// The key of a live entry; all zeros where no entry is live.
fn key_of<C: Case>(board: &Board<C>, number: u32) -> Key
    ensures { IsTrue (is_among (state_of C.run board.now).listed number) → numbers result ≡ key_of_entry (entry_of number (state_of C.run board.now).entries) }
{
    match board.entries().get(number) {
        Some(entry) => entry.key,
        None => Key::zero(),
    }
}

fn puts<C: Case, T: RunTables<C>>(
    alloc: Global,
    run: &RunData<C>,
    store: T::Store,
    board: &mut Board<C>,
    number: u32,
    version: u32,
    answer: Result<PutDone, PutFault>,
) -> Result<bool, AllocError>
    requires { IsTrue (list_all has_sound_actions C.run.edits) }
{
    if version > run.last_version() {
        return Ok(false);
    }
    let key = key_of(board, number);
    let made = translation::<C, T>(alloc, run, store, version, &key)?;
    Ok(match board.put(number, made) {
        Ok(revalidated) => answer == Ok(revalidated.done),
        Err(fault) => answer == Err(fault),
    })
}

/// Whether an entry decided so much and owes so much.
fn has_entry<C: Case>(board: &Board<C>, number: u32, decided: Counts, owed: Counts) -> bool {
    let Some(entry) = board.entries().get(number) else {
        return false;
    };
    let all = Counts {
        packets: entry.packets,
        bytes: entry.bytes,
    };
    let unpaid = Counts {
        packets: entry.owed_packets,
        bytes: entry.owed_bytes,
    };
    all == decided && unpaid == owed
}

/// Whether a rule was credited with so much.
fn has_total<C: Case>(board: &Board<C>, rule: u32, counts: Counts) -> bool {
    let totals = board.totals();
    if rule == 0 || rule > totals.rules() {
        return false;
    }
    totals.of(rule) == counts
}

/// Whether the mask of an entry stands at a place of the order, with so many hits; or none does, where none is given.
fn has_rank<C: Case>(board: &Board<C>, at: u32, expected: Option<(u32, u64)>) -> bool {
    let entries = board.entries();
    match (entries.rank(at), expected) {
        (Some((mask, hits)), Some((number, count))) => match entries.get(number) {
            Some(entry) => mask == entry.mask && hits == count,
            None => false,
        },
        (None, None) => true,
        _ => false,
    }
}

/// Whether a call answers as it says.
fn answers<C: Case, T: RunTables<C>>(
    alloc: Global,
    run: &RunData<C>,
    store: T::Store,
    board: &mut Board<C>,
    flow_limit: u32,
    call: Call,
) -> Result<bool, AllocError>
    requires sound { IsTrue (list_all has_sound_actions C.run.edits) }
    requires limit { flow_limit ≡ C.run.flow_limit }
{
    match call {
        Call::Open(block, answer) => Ok(board.open_block(block) == answer),
        Call::Look(place, answer) => Ok(looks(run, board, place, answer)),
        Call::Settle(place, version, answer) => {
            settles::<C, T>(alloc, run, store, board, place, version, answer)
        }
        Call::Begin(version, answer) => Ok(board.begin(version) == answer),
        Call::Put(entry, version, answer) => {
            puts::<C, T>(alloc, run, store, board, entry, version, answer)
        }
        Call::End(answer) => Ok(board.end() == answer),
        Call::Entry(number, decided, owed) => Ok(has_entry(board, number, decided, owed)),
        Call::NoEntry(number) => Ok(board.entries().get(number).is_none()),
        Call::Total(rule, counts) => Ok(has_total(board, rule, counts)),
        Call::After(number, next) => Ok(board.entries().after(number) == next),
        Call::Rank(at, expected) => Ok(has_rank(board, at, expected)),
        Call::Renew(limit) => {
            let renewed = Board::new(alloc, run, board.port(), limit)?;
            drop(mem::replace(board, renewed));
            Ok(true)
        }
        Call::Close(block, fits) => closes::<C, T>(
            alloc, run, store, board, block, flow_limit, fits,
        ),
    }
}

/// The place of the first call, from 0, that doesn't answer as it says. The calls are those of a new board.
pub fn first_wrong<C: Case, T: RunTables<C>>(
    alloc: Global,
    run: &RunData<C>,
    store: T::Store,
    flow_limit: u32,
    calls: &[Call],
) -> Result<Option<usize>, AllocError>
    requires port { HasPort C.run.ports PORT }
    requires sound { IsTrue (list_all has_sound_actions C.run.edits) }
    requires limit { flow_limit ≡ C.run.flow_limit }
{
    let mut board = Board::new(alloc, run, PORT, flow_limit)?;
    let wrong = first_wrong_on::<C, T>(alloc, run, store, &mut board, flow_limit, calls);
    drop(board);
    wrong
}

/// The same of calls of this board.
fn first_wrong_on<C: Case, T: RunTables<C>>(
    alloc: Global,
    run: &RunData<C>,
    store: T::Store,
    board: &mut Board<C>,
    flow_limit: u32,
    calls: &[Call],
) -> Result<Option<usize>, AllocError>
    requires sound { IsTrue (list_all has_sound_actions C.run.edits) }
    requires limit { flow_limit ≡ C.run.flow_limit }
{
    for (place, call) in calls.iter().enumerate() {
        if !answers::<C, T>(alloc, run, store, board, flow_limit, *call)? {
            return Ok(Some(place));
        }
    }
    Ok(None)
}
