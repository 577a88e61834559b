//! Rows on blocks that are stored behind marks, in the worked script.

use super::owner;
use super::scripts::{self, assert_at, assert_places};
use outside::{MemSlot, Slot};
use page_table::Place;
use reservation_tree::{Mark, PoolErr};
use std::alloc::Global;
use std::process::Abort;

// What is stored of page 0: the first block of the page of name 0, by the write that entry 14 begins.
const FIRST: [u8; 20] = [0, 0, 0, 0, 0, 0, 0, 0, 0, 0, 0, 0, 0, 0, 0, 14, 0, 0, 0, 0];

// And of page 1, by the write that entry 20 begins.
const SECOND: [u8; 20] = [0, 0, 0, 0, 0, 0, 0, 1, 0, 0, 0, 0, 0, 0, 0, 20, 0, 0, 0, 0];

// A block of 64 times this byte behind a mark.
fn marked(rt: &impl Abort, alloc: Global, mark: &[u8; 20], byte: u8) -> Vec<u8> {
    let mut block = Vec::new(alloc);
    block.extend_from_slice(mark).expect(rt, "memory");
    block.extend_from_slice(&[byte; 64]).expect(rt, "memory");
    block
}

// Whether the slot holds this block.
fn holds(slot: &mut MemSlot, block: &[u8]) -> bool {
    let mut shown = [0; 84];
    slot.load(&mut shown).is_ok() && shown.as_slice() == block
}

#[test]
fn a_page_lies_behind_its_mark_in_its_slot(rt: HostRuntime) {
    let slots = scripts::slots_but(&rt, rt.alloc(), 0, &[]);
    let mut s = scripts::staged(&rt, rt.alloc(), true, slots);
    let buf = scripts::shown_at(&rt, &mut s, 25);
    let pool = scripts::emptied(&rt, s, buf);
    let first = marked(&rt, rt.alloc(), &FIRST, 0x11);
    let second = marked(&rt, rt.alloc(), &SECOND, 0x22);
    let mut found = (0u32, 0u32);
    for mut slot in owner::slots_back(&rt, pool) {
        if holds(&mut slot, first.as_slice()) {
            found.0 = found.0.saturating_add(1);
        }
        if holds(&mut slot, second.as_slice()) {
            found.1 = found.1.saturating_add(1);
        }
    }
    assert_eq!(rt; found, (1, 1));
}

// Eight slots, of which the first gives this block at the load that is its call of number 1.
fn slots_lying(rt: &impl Abort, alloc: Global, block: Vec<u8>) -> Vec<MemSlot> {
    let mut slots = Vec::new(alloc);
    let lies = [(1, block)];
    for i in 0..8 {
        let lies = if i == 0 { lies.as_slice() } else { &[] };
        let slot = MemSlot::lying(alloc, &[], lies).expect(rt, "a slot");
        slots.push(slot).expect(rt, "a slot");
    }
    slots
}

#[test]
fn a_slot_that_gives_another_pages_block_is_found_out(rt: HostRuntime) {
    let block = marked(&rt, rt.alloc(), &SECOND, 0x22);
    let slots = slots_lying(&rt, rt.alloc(), block);
    let mut s = scripts::staged(&rt, rt.alloc(), true, slots);
    let refused = owner::pin(&rt, &mut s.pool, &s.c, &s.first).err();
    let wanted = Mark {
        name: 0,
        version: 14,
        block: 0,
    };
    let found = Mark {
        name: 1,
        version: 20,
        block: 0,
    };
    assert_eq!(rt; refused, Some(PoolErr::Stale { wanted, found }));
    // The load and the pin's refusal are the last two entries.
    assert_at(&rt, &s.pool, &s.c, 26, 192);
    assert_places(&rt, &s, Place::Evicted, Place::Evicted);
    let buf = scripts::shown_at(&rt, &mut s, 29);
    let pool = scripts::emptied(&rt, s, buf);
    let mut counts = (0u64, 0u64);
    for slot in owner::slots_back(&rt, pool) {
        counts.0 = counts.0.saturating_add(slot.faults());
        counts.1 = counts.1.saturating_add(slot.strays());
    }
    assert_eq!(rt; counts, (0, 1));
}
