//! Pages that are pinned several times.

use crate::tests::plain_pool::PlainPool;
use crate::tests::worked::{
    CLEAN, CLIENT, DIRTY, FLYING, create, enter_all, follow, four_blocks, four_pages, go_on,
    one_client, pinned_twice, pins, refuse, row, unpin, with_192, write_failed,
};
use crate::{Call, Event};
use std::alloc::{AllocError, Global};
use std::process::Abort;
use std::test::Fail;

fn pin_thrice_and_leave(alloc: Global, events: &mut Vec<Event>) -> Result<(), AllocError> {
    events.extend([
        create(0),
        Event::PinAgain { page: 0 },
        Event::PinAgain { page: 0 },
        Event::UnpinOnce { page: 0 },
        Event::UnpinOnce { page: 0 },
    ])?;
    events.extend([unpin(alloc, 0, 0x11)?])
}

#[test]
fn each_pin_is_charged_and_the_page_has_its_blocks_once(rt: HostRuntime) -> Result<(), Fail> {
    let rows = [
        (
            6,
            with_192(row(192, 192, 192, [pins(3), None, None, None, None])),
        ),
        (
            8,
            with_192(row(64, 64, 192, [pins(1), None, None, None, None])),
        ),
        (
            9,
            with_192(row(0, 64, 192, [DIRTY, None, None, None, None])),
        ),
    ];
    let mut events = one_client(rt.alloc(), 192)?;
    pin_thrice_and_leave(rt.alloc(), &mut events)?;
    assert_eq!(rt; follow(&rt, rt.alloc(), events, &rows)?, 10);
    Ok(())
}

fn written(alloc: Global) -> Result<Vec<Event>, AllocError> {
    let mut events = pinned_twice(alloc)?;
    events.extend([Event::WriteOk { page: 0 }, Event::PinAgain { page: 1 }])?;
    Ok(events)
}

fn not_written(alloc: Global) -> Result<Vec<Event>, AllocError> {
    let mut events = pinned_twice(alloc)?;
    events.extend([
        write_failed(0),
        Event::Refused {
            call: Call::PinAgain { page: 1 },
            entry: 13,
        },
    ])?;
    Ok(events)
}

#[test]
fn another_pin_waits_for_a_dirty_page_to_be_written(rt: HostRuntime) -> Result<(), Fail> {
    let alloc = rt.alloc();
    let rows = [
        (
            8,
            with_192(row(64, 128, 128, [DIRTY, pins(1), None, None, None])),
        ),
        (
            10,
            with_192(row(128, 192, 128, [DIRTY, pins(2), None, None, None])),
        ),
        (
            12,
            with_192(row(128, 192, 128, [FLYING, pins(2), None, None, None])),
        ),
        (
            14,
            with_192(row(192, 192, 128, [CLEAN, pins(3), None, None, None])),
        ),
    ];
    follow(&rt, alloc, written(alloc)?, &rows)?;

    let stays = [(
        14,
        with_192(row(128, 192, 128, [DIRTY, pins(2), None, None, None])),
    )];
    follow(&rt, alloc, not_written(alloc)?, &stays)?;
    Ok(())
}

#[test]
fn one_pin_is_left_with_bytes_and_several_one_by_one(rt: HostRuntime) -> Result<(), Fail> {
    let alloc = rt.alloc();
    refuse(
        &rt,
        alloc,
        pinned_twice(alloc)?,
        Event::PinAgain { page: 1 },
        "a pin beyond the reservation",
    )?;
    refuse(
        &rt,
        alloc,
        pinned_twice(alloc)?,
        Event::PinAgain { page: 0 },
        "a page is pinned again that isn't pinned",
    )?;
    let whole = unpin(alloc, 1, 0)?;
    refuse(
        &rt,
        alloc,
        pinned_twice(alloc)?,
        whole,
        "a page with two pins is left",
    )?;
    refuse(
        &rt,
        alloc,
        pinned_twice(alloc)?,
        Event::Extract { page: 1, buffer: 0 },
        "a page with two pins is extracted",
    )?;
    refuse(
        &rt,
        alloc,
        four_pages(alloc)?,
        Event::UnpinOnce { page: 0 },
        "the only pin ends without bytes",
    )?;
    let mut pool = four_blocks(alloc)?;
    destroy(&rt, alloc, &mut pool)?;
    assert_eq!(rt; (pool.held(CLIENT), pool.free()), (64, 192));
    Ok(())
}

fn destroy(rt: &impl Abort, alloc: Global, pool: &mut PlainPool) -> Result<(), AllocError> {
    enter_all(rt, pool, pinned_twice(alloc)?, &[])?;
    go_on(rt, pool, Event::Destroy { page: 1 })
}
