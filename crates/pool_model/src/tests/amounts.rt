//! Buffers, slots and reservations that move, fall and end.

use crate::Event;
use crate::tests::plain_pool::PlainPool;
use crate::tests::worked::{
    CLIENT, OTHER, QUERY, create, enter, enter_all, four_blocks, go_on, tracker, two_clients, unpin,
};
use std::alloc::{AllocError, Global};
use std::process::Abort;
use std::test::Fail;

fn extracted(alloc: Global) -> Result<Vec<Event>, AllocError> {
    let mut events = two_clients(alloc)?;
    events.extend([create(0), Event::Extract { page: 0, buffer: 7 }])?;
    Ok(events)
}

// The charge of each client, and what is free.
fn charges(pool: &PlainPool) -> (u64, u64, u64) {
    (pool.charge(CLIENT), pool.charge(OTHER), pool.free())
}

fn move_and_free(rt: &impl Abort, alloc: Global, pool: &mut PlainPool) -> Result<(), AllocError> {
    enter_all(rt, pool, extracted(alloc)?, &[])?;
    assert_eq!(rt; charges(pool), (64, 0, 192));
    let moved = Event::MoveBuffer {
        buffer: 7,
        to: tracker(OTHER),
    };
    go_on(rt, pool, moved)?;
    assert_eq!(rt; charges(pool), (0, 64, 192));
    go_on(rt, pool, Event::Free { buffer: 7 })?;
    assert_eq!(rt; (pool.charge(OTHER), pool.free()), (0, 256));
    Ok(())
}

#[test]
fn a_buffer_keeps_its_blocks_and_changes_its_client(rt: HostRuntime) -> Result<(), Fail> {
    let mut pool = four_blocks(rt.alloc())?;
    move_and_free(&rt, rt.alloc(), &mut pool)?;
    Ok(())
}

// Page 0 is left with the only slot, and page 1 has to stay.
fn leave_one(alloc: Global, events: &mut Vec<Event>) -> Result<(), AllocError> {
    events.extend([create(0), create(1)])?;
    events.extend([unpin(alloc, 0, 0)?, Event::UnpinRefused { page: 1 }])
}

fn one_left(alloc: Global) -> Result<Vec<Event>, AllocError> {
    let mut events = two_clients(alloc)?;
    leave_one(alloc, &mut events)?;
    Ok(events)
}

fn fall() -> Event {
    Event::Decrease {
        tracker: tracker(CLIENT),
        bytes: 64,
    }
}

fn write_and_fall(rt: &impl Abort, alloc: Global, pool: &mut PlainPool) -> Result<(), AllocError> {
    enter_all(rt, pool, one_left(alloc)?, &[])?;
    let may = enter(pool, fall())?;
    assert!(rt; !may, "a dirty page needs the bytes");
    go_on(rt, pool, Event::StartWrite { page: 0 })?;
    go_on(rt, pool, Event::WriteOk { page: 0 })?;
    go_on(rt, pool, fall())?;
    let reserved = [0, QUERY, CLIENT, OTHER].map(|t| pool.reservation(t));
    assert_eq!(rt; reserved, [128, 128, 64, 64]);
    Ok(())
}

fn move_and_close(rt: &impl Abort, pool: &mut PlainPool) -> Result<(), AllocError> {
    let moved = Event::MoveReservation {
        from: tracker(OTHER),
        to: tracker(CLIENT),
        bytes: 64,
    };
    go_on(rt, pool, moved)?;
    go_on(rt, pool, Event::PinHere { page: 0 })?;
    go_on(rt, pool, Event::Destroy { page: 0 })?;
    let closed = Event::CloseTracker {
        tracker: tracker(OTHER),
    };
    go_on(rt, pool, closed)?;
    assert_eq!(rt; (pool.reservation(CLIENT), pool.held(CLIENT)), (128, 64));
    Ok(())
}

#[test]
fn what_is_given_back_is_written_first(rt: HostRuntime) -> Result<(), Fail> {
    let mut pool = four_blocks(rt.alloc())?;
    write_and_fall(&rt, rt.alloc(), &mut pool)?;
    move_and_close(&rt, &mut pool)?;
    Ok(())
}
