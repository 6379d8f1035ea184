ghost use Rattle.std.specs.Prelude.{◌≡◌, ◌<◌, false, All, IsTrue, IfOk};
ghost use Rattle.ovs_fields.specs.Packed.{numbers, bits};
ghost use Rattle.megaflow_table.specs.Entries.{overlaps};

use dp_actions::Visits;
use megaflow_table::{Entry, Megaflows};
use ovs_fields::{FieldId, Key, Mask};
use std::alloc::{AllocError, Global};
use std::process::Abort;

/// The flow limit, which is more than the entries of any test.
const LIMIT: u32 = 10;

const IN_PORT_BITS: u128 = 0xffff;

const DL_DST_BITS: u128 = 0xffff_ffff_ffff;

const DL_TYPE_BITS: u128 = 0xffff;

/// The key of a packet that came in by a port for an Ethernet address.
fn key_of(port: u16, address: u32) -> Key {
    let mut key = Key::zero();
    key.set(FieldId::InPort, u128::from(port));
    key.set(FieldId::DlDst, u128::from(address));
    key
}

/// The mask of the port alone.
fn port_mask() -> Mask {
    let mut mask = Mask::none();
    mask.add(FieldId::InPort, IN_PORT_BITS);
    mask
}

/// The mask of the port and the address.
fn whole_mask() -> Mask {
    let mut mask = port_mask();
    mask.add(FieldId::DlDst, DL_DST_BITS);
    mask
}

/// The mask of the address alone.
fn address_mask() -> Mask {
    let mut mask = Mask::none();
    mask.add(FieldId::DlDst, DL_DST_BITS);
    mask
}

/// The mask of the port and the Ethernet type.
fn type_mask() -> Mask {
    let mut mask = port_mask();
    mask.add(FieldId::DlType, DL_TYPE_BITS);
    mask
}

/// An entry that has decided nothing yet.
fn entry(alloc: Global, number: u32, key: Key, mask: Mask) -> Entry {
    Entry {
        number,
        key,
        mask,
        version: 1,
        actions: 0,
        visits: Visits::new(Vec::new(alloc)),
        packets: 0,
        bytes: 0,
        owed_packets: 0,
        owed_bytes: 0,
        used: 0,
    }
}

/// Whether a number is greater than those of all entries.
fn is_greatest(table: &Megaflows, number: u32) -> bool
    ensures { IsTrue result → All (λ e. e.number < number) table.now.entries }
{
    table.numbers().iter().all(|live| *live < number)
}

/// Whether an entry overlaps none of the entries.
fn overlaps_none(table: &Megaflows, entry: &Entry) -> Result<bool, AllocError>
    ensures { IfOk result (λ apart. IsTrue apart → All (λ e. overlaps (numbers entry.now.key) (bits entry.now.mask) e ≡ false) table.now.entries) }
{
    let overlapping = table.overlaps(&entry.key, &entry.mask)?;
    Ok(overlapping.is_empty())
}

/// Installs an entry where that is allowed.
fn install(table: &mut Megaflows, entry: Entry) -> Result<(), AllocError> {
    table.reserve(&entry.mask)?;
    let greatest = is_greatest(table, entry.number);
    let apart = overlaps_none(table, &entry)?;
    if greatest && apart {
        table.install(entry);
    }
    Ok(())
}

/// An entry decides a packet, if it is there.
fn hit(table: &mut Megaflows, number: u32, length: u32, time: u64) {
    if table.get(number).is_some() {
        // Where it was seen may be anywhere.
        table.hit(number, number as usize, length, time);
    }
}

/// Changes an entry, if it is there.
fn change(table: &mut Megaflows, number: u32, version: u32, visits: Visits) {
    if table.get(number).is_some() {
        table.change(number, version, 0, visits);
    }
}

fn pay(table: &mut Megaflows, number: u32) {
    if table.get(number).is_some() {
        table.pay(number);
    }
}

fn remove(table: &mut Megaflows, number: u32) {
    if table.get(number).is_some() {
        table.remove(number);
    }
}

/// An entry of each of two masks.
fn install_two(alloc: Global, table: &mut Megaflows) -> Result<(), AllocError> {
    install(table, entry(alloc, 1, key_of(7, 0), port_mask()))?;
    install(table, entry(alloc, 4, key_of(8, 2), whole_mask()))
}

/// Asserts which entry covers a key.
fn expect_found(rt: &impl Abort, table: &Megaflows, key: &Key, number: Option<u32>) {
    assert_eq!(rt; table.find(key), number);
}

/// Asserts which entries an entry of this key and mask would overlap.
fn expect_overlapping(rt: &impl Abort, table: &Megaflows, key: &Key, mask: &Mask, numbers: &[u32]) {
    let overlapping = table.overlaps(key, mask).expect(rt, "ample memory");
    assert!(rt; overlapping.as_slice() == numbers);
}

/// Two entries, of which the second one goes.
fn keys_find_their_entries(rt: &impl Abort, alloc: Global, table: &mut Megaflows) {
    install_two(alloc, table).expect(rt, "ample memory");
    assert!(rt; table.len() == 2);
    expect_found(rt, table, &key_of(7, 2), Some(1));
    expect_found(rt, table, &key_of(8, 2), Some(4));
    expect_found(rt, table, &key_of(8, 3), None);
    assert!(rt; table.after(1) == Some(4));
    expect_overlapping(rt, table, &key_of(8, 0), &port_mask(), &[4]);
    remove(table, 4);
    assert!(rt; table.numbers() == &[1][..]);
    expect_found(rt, table, &key_of(8, 2), None);
}

#[test]
fn a_key_has_the_one_entry_that_covers_it(rt: HostRuntime) {
    let mut table = Megaflows::new(rt.alloc(), LIMIT);
    keys_find_their_entries(&rt, rt.alloc(), &mut table);
    drop(table);
}

/// Three entries, and what overlaps one of them, none and all.
fn covered_masks_overlap(rt: &impl Abort, alloc: Global, table: &mut Megaflows) {
    install_two(alloc, table).expect(rt, "ample memory");
    install(table, entry(alloc, 6, key_of(9, 0), port_mask())).expect(rt, "ample memory");
    expect_overlapping(rt, table, &key_of(9, 2), &whole_mask(), &[6]);
    expect_overlapping(rt, table, &key_of(8, 3), &whole_mask(), &[]);
    expect_overlapping(rt, table, &key_of(5, 2), &address_mask(), &[1, 4, 6]);
}

#[test]
fn entries_overlap_where_one_mask_covers_the_other(rt: HostRuntime) {
    let mut table = Megaflows::new(rt.alloc(), LIMIT);
    covered_masks_overlap(&rt, rt.alloc(), &mut table);
    drop(table);
}

/// Two entries, and what overlaps each of them alone and none.
fn crossing_masks_overlap(rt: &impl Abort, alloc: Global, table: &mut Megaflows) {
    install(table, entry(alloc, 2, key_of(7, 3), whole_mask())).expect(rt, "ample memory");
    install(table, entry(alloc, 5, key_of(8, 0), type_mask())).expect(rt, "ample memory");
    expect_overlapping(rt, table, &key_of(8, 3), &whole_mask(), &[5]);
    expect_overlapping(rt, table, &key_of(7, 4), &type_mask(), &[2]);
    expect_overlapping(rt, table, &key_of(9, 3), &whole_mask(), &[]);
}

#[test]
fn entries_overlap_where_neither_mask_covers_the_other(rt: HostRuntime) {
    let mut table = Megaflows::new(rt.alloc(), LIMIT);
    crossing_masks_overlap(&rt, rt.alloc(), &mut table);
    drop(table);
}

/// An entry that decides two packets, is paid for the first one, and changes.
fn packets_are_counted(rt: &impl Abort, alloc: Global, table: &mut Megaflows) {
    install_two(alloc, table).expect(rt, "ample memory");
    hit(table, 4, 60, 5);
    pay(table, 4);
    hit(table, 4, 64, 9);
    change(
        table,
        4,
        2,
        Visits::new(vec![in alloc; 3].expect(rt, "ample memory")),
    );
    let counts = table
        .get(4)
        .map(|e| (e.bytes, e.owed_bytes, e.used, e.version));
    assert!(rt; counts == Some((124, 64, 9, 2)));
}

#[test]
fn an_entry_counts_its_packets(rt: HostRuntime) {
    let mut table = Megaflows::new(rt.alloc(), LIMIT);
    packets_are_counted(&rt, rt.alloc(), &mut table);
    drop(table);
}

/// An entry decides packets of one byte, so many.
fn hit_often(table: &mut Megaflows, number: u32, times: u32) {
    for _ in 0..times {
        hit(table, number, 1, 0);
    }
}

/// Asserts which mask stands at a place of the order, and with how many hits.
fn expect_rank(rt: &impl Abort, table: &Megaflows, place: u32, mask: Mask, hits: u64) {
    assert!(rt; table.rank(place) == Some((mask, hits)));
}

/// Asserts that so many masks stand in the order.
fn expect_masks(rt: &impl Abort, table: &Megaflows, count: u32) {
    assert!(rt; table.rank(count) == None);
}

/// Two entries, of which the second one is hit more often, and then goes.
fn masks_are_ranked(rt: &impl Abort, alloc: Global, table: &mut Megaflows) {
    install_two(alloc, table).expect(rt, "ample memory");
    expect_rank(rt, table, 0, port_mask(), 0);
    hit_often(table, 4, 100);
    hit(table, 1, 60, 5);
    expect_rank(rt, table, 0, whole_mask(), 100);
    expect_rank(rt, table, 1, port_mask(), 1);
    expect_masks(rt, table, 2);
    assert!(rt; table.after(0) == Some(1));
    expect_found(rt, table, &key_of(7, 2), Some(1));
    expect_found(rt, table, &key_of(8, 2), Some(4));
    let counts = table.get(1).map(|e| (e.packets, e.bytes, e.used));
    assert!(rt; counts == Some((1, 60, 5)));
    remove(table, 4);
    expect_rank(rt, table, 0, port_mask(), 1);
    expect_masks(rt, table, 1);
}

#[test]
fn masks_stand_by_their_hits(rt: HostRuntime) {
    let mut table = Megaflows::new(rt.alloc(), LIMIT);
    masks_are_ranked(&rt, rt.alloc(), &mut table);
    drop(table);
}
