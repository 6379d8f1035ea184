//! A sweep of a board on which another works meanwhile.
//!
//! The gate is told of an entry while the board's lock is free. Here it takes the lock itself and does what another
//! thread could: it puts the entry and ends the sweep, and may begin one more.
use crate::literal_run::PORT;
use edge_io::{Gate, Point};
use ovs_fields::Key;
use pmd_board::{Board, Xlated};
use revalidator::{Swept, begin_lent, end_lent, put_lent, sweep_board};
use run_case::{Case, RunData};
use std::alloc::{AllocError, Global};
use std::sync::{Mutex, Wait};
use table_publish::{Seer, SpareLists, translate_newest};
use table_versions::RunTables;

/// Puts an entry and ends the sweep, once it is told of the entry.
#[derive(Drop)]
struct Meddler<'a, C: Case, R: Wait> {
    rt: &'a R,
    board: &'a Mutex<Board<C>>,
    /// The translation of the entry's key, until it is put.
    made: Mutex<Option<Xlated<C>>>,
    /// The version at which one more sweep begins, if one does.
    again: Option<u32>,
}

impl<'a, C: Case, R: Wait> Gate for Meddler<'a, C, R> {
    fn pass(&self, point: Point) {
        let Point::Check { port: _, entry } = point else {
            return;
        };
        let taken = self.made.lock(self.rt).take();
        let Some(made) = taken else {
            return;
        };
        if entry == 0 {
            return;
        }
        let _put = put_lent(&mut *self.board.lock(self.rt), entry, made);
        let _ended = end_lent(&mut *self.board.lock(self.rt), 0);
        if let Some(version) = self.again {
            let _begun = begin_lent(&mut *self.board.lock(self.rt), version);
        }
    }
}

/// The key of the first entry of a board; all zeros where it isn't live.
fn first_key<C: Case>(board: &Board<C>) -> Key {
    match board.entries().get(1) {
        Some(entry) => entry.key,
        None => Key::zero(),
    }
}

/// Sweeps a board of one entry, which another puts meanwhile.
pub fn swept_beside<C: Case, T: RunTables<C>, R: Wait>(
    rt: &R,
    alloc: Global,
    seer: Seer<C, T>,
    run: &RunData<C>,
    board: &Mutex<Board<C>>,
    again: Option<u32>,
) -> (Seer<C, T>, Result<Swept, AllocError>) {
    let key = first_key(&*board.lock(rt));
    let (seer, made) = translate_newest(rt, seer, run, &key, SpareLists::new(alloc));
    let made = match made {
        Ok(made) => made,
        Err(e) => return (seer, Err(e)),
    };
    let meddler = Meddler {
        rt,
        board,
        made: Mutex::new(Some(made)),
        again,
    };
    let swept = sweep_board(rt, alloc, seer, run, PORT, board, &meddler);
    drop(meddler);
    swept
}
