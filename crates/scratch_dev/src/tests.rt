//! Rows of slots, and blocks in them.
ghost use Rattle.std.specs.Prelude.{◌≡◌, ◌<◌, ◌^◌, None, IfOk, length, replicate};

use crate::{
    LoadErr, SlotPool, SlotRow, SlotShell, load_all, load_marked, store_all, store_marked,
};
use block_arena::{Arena, Shell};
use outside::{Failed, MemSlot, Slot};
use reservation_tree::{Mark, Memory, PoolErr};
use std::alloc::Global;
use std::process::Abort;
use std::test::Fail;

// A pool of numbered slots.
fn numbered(alloc: Global, slots: &[u8], quotas: u32) -> Result<SlotPool<u8>, Memory>
    requires { length slots.now < 2 ^ 32 }
    ensures { IfOk result (λ pool. pool ≡ record { free = slots.now; quotas = replicate quotas None; spare = length slots.now }) }
{
    match SlotPool::open(alloc, Vec::from_slice(alloc, slots)?, quotas) {
        Ok(pool) => Ok(pool),
        Err((_, memory)) => Err(memory),
    }
}

#[test]
fn a_take_of_too_many_gives_the_shell_back(rt: HostRuntime) -> Result<(), Fail> {
    let mut pool = numbered(rt.alloc(), &[1, 2, 3], 2)?;
    assert_eq!(rt; pool.spare(), 3);
    pool.open_quota(0, 1);
    pool.open_quota(1, 2);
    assert_eq!(rt; pool.spare(), 0);
    match pool.take(0, SlotShell::with(rt.alloc(), 2)?) {
        Err((shell, refused)) => {
            assert_eq!(rt; refused, PoolErr::ScratchFull { need: 2, free: 1 });
            if let Ok(row) = pool.take(1, shell) {
                assert_eq!(rt; row.slots.as_slice(), [1, 2].as_slice());
            } else {
                panic!(rt; "two slots are free");
            }
        }
        Ok(_) => panic!(rt; "one slot is free"),
    }
    Ok(())
}

#[test]
fn slots_go_out_in_front_and_come_back_behind(rt: HostRuntime) -> Result<(), Fail> {
    let mut pool = numbered(rt.alloc(), &[1, 2, 3, 4, 5], 2)?;
    pool.open_quota(0, 3);
    pool.open_quota(1, 2);
    let Ok(first) = pool.take(0, SlotShell::with(rt.alloc(), 2)?) else {
        panic!(rt; "three slots are free");
    };
    assert_eq!(rt; first.slots.as_slice(), [1, 2].as_slice());
    let Ok(second) = pool.take(1, SlotShell::with(rt.alloc(), 1)?) else {
        panic!(rt; "two slots are free");
    };
    assert_eq!(rt; second.slots.as_slice(), [3].as_slice());
    let shell = pool.give(0, first);
    let _one = pool.give(1, second);
    let Ok(third) = pool.take(1, shell) else {
        panic!(rt; "two slots are free");
    };
    assert_eq!(rt; third.slots.as_slice(), [4, 5].as_slice());
    let _two = pool.give(1, third);
    pool.close_quota(1);
    pool.law_counted();
    assert_eq!(rt; pool.spare(), 2);
    pool.close_quota(0);
    assert_eq!(rt; pool.close().as_slice(), [1, 2, 3, 4, 5].as_slice());
    Ok(())
}

// Three slots, of which the one at this place fails at its call of this number.
fn failing(alloc: Global, place: usize, call: u64) -> Result<SlotRow<MemSlot>, Memory>
    ensures { IfOk result (λ row. length row ≡ 3) }
{
    let mut slots = Vec::with_capacity(alloc, 3)?;
    for i in 0..3usize {
        let fails = [call];
        let listed: &[u64] = if i == place { &fails } else { &[] };
        match MemSlot::new(alloc, listed) {
            Ok(slot) => slots.push_reserved(slot),
            Err(_) => return Err(Memory),
        }
    }
    Ok(SlotRow { slots })
}

// What three slots answer where one of them fails, and the first byte of each block that was loaded.
fn stores_and_loads(rt: &impl Abort, alloc: Global, place: usize) -> Result<(), Fail> {
    let mut arena = Arena::open(alloc, 3, 64)?;
    let mut buf = arena.fill(Shell::with(alloc, 3)?);
    buf.block_mut(0).copy_from_slice(&[1; 64]);
    buf.block_mut(1).copy_from_slice(&[2; 64]);
    buf.block_mut(2).copy_from_slice(&[3; 64]);

    let mut row = failing(alloc, place, 0)?;
    assert_eq!(rt;
        store_all(&buf, &mut row),
        if place < 3 { Err(Failed) } else { Ok(()) },
        "{place}"
    );
    for (i, slot) in row.slots.iter().enumerate() {
        assert_eq!(rt;
            slot.stores(),
            if i < place { 1 } else { 0 },
            "{i} of {place}"
        );
    }

    let mut row = failing(alloc, place, 1)?;
    assert_eq!(rt; store_all(&buf, &mut row), Ok(()), "{place}");
    buf.zero();
    assert_eq!(rt;
        load_all(&mut buf, &mut row),
        if place < 3 { Err(Failed) } else { Ok(()) },
        "{place}"
    );
    let wanted = [1u8, 2, 3];
    for i in 0..3usize {
        let byte = if i < place { wanted[i] } else { 0 };
        assert_eq!(rt; buf.block(i), [byte; 64].as_slice(), "{i} of {place}");
    }
    Ok(())
}

#[test]
fn the_first_slot_that_fails_ends_the_call(rt: HostRuntime) -> Result<(), Fail> {
    for place in 0..4 {
        stores_and_loads(&rt, rt.alloc(), place)?;
    }
    Ok(())
}

// One slot that gives this block at its call of this number.
fn lying(alloc: Global, call: u64, block: &[u8]) -> Result<SlotRow<MemSlot>, Memory>
    ensures { IfOk result (λ row. length row ≡ 1) }
{
    let mut slots = Vec::with_capacity(alloc, 1)?;
    let lies = [(call, Vec::from_slice(alloc, block)?)];
    match MemSlot::lying(alloc, &[], &lies) {
        Ok(slot) => slots.push_reserved(slot),
        Err(_) => return Err(Memory),
    }
    Ok(SlotRow { slots })
}

#[test]
fn a_block_with_another_mark_is_stale(rt: HostRuntime) -> Result<(), Fail> {
    let alloc = rt.alloc();
    let mut arena = Arena::open(alloc, 1, 64)?;
    let mut buf = arena.fill(Shell::with(alloc, 1)?);
    let found = Mark {
        name: 1,
        version: 20,
        block: 0,
    };
    let mut other = [0x22; 84];
    found.write(&mut other);

    let mut row = lying(alloc, 1, &other)?;
    buf.block_mut(0).copy_from_slice(&[0x11; 64]);
    assert_eq!(rt; store_marked(&mut buf, &mut row, 0, 14), Ok(()));
    let wanted = Mark {
        name: 0,
        version: 14,
        block: 0,
    };
    let stale = LoadErr::Stale { wanted, found };
    assert_eq!(rt; load_marked(&mut buf, &mut row, 0, 14), Err(stale));
    assert_eq!(rt; row.slots[0].strays(), 1);
    buf.zero();
    assert_eq!(rt; load_marked(&mut buf, &mut row, 0, 14), Ok(()));
    assert_eq!(rt; buf.block(0), [0x11; 64].as_slice());
    let mut bytes = [0; 84];
    assert_eq!(rt; row.slots[0].load(&mut bytes), Ok(()));
    let front = [0, 0, 0, 0, 0, 0, 0, 0, 0, 0, 0, 0, 0, 0, 0, 14, 0, 0, 0, 0];
    assert_eq!(rt; &bytes[0..20], front.as_slice());
    assert_eq!(rt; &bytes[20..84], [0x11; 64].as_slice());
    Ok(())
}
