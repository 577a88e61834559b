//! Worked histories, followed by the program over plain maps.
mod amounts;
mod marks;
mod pins;
mod plain_pages;
mod plain_pool;
mod plain_rules;
mod plain_scratch;
mod plain_trackers;
mod worked;

use super::*;
use crate::tests::worked::{
    CLIENT, DIRTY, EVICTED, OTHER, PINNED, QUERY, evict_and_load, failed_write, five_pages, follow,
    four_pages, may_follow, refuse, row, tracker, unpin,
};
use std::alloc::{AllocError, Global};
use std::test::Fail;

fn load(events: &mut Vec<Event>) -> Result<(), AllocError> {
    evict_and_load(events)?;
    events.extend([Event::ReadOk { page: 0 }])
}

#[test]
fn a_pin_writes_evicts_and_loads(rt: HostRuntime) -> Result<(), Fail> {
    let rows = [
        (3, row(0, 0, 256, [None; 5])),
        (11, row(256, 256, 0, [PINNED, PINNED, PINNED, PINNED, None])),
        (12, row(192, 256, 0, [DIRTY, PINNED, PINNED, PINNED, None])),
        (
            17,
            row(256, 256, 0, [EVICTED, PINNED, PINNED, PINNED, PINNED]),
        ),
        (
            18,
            row(192, 256, 0, [EVICTED, DIRTY, PINNED, PINNED, PINNED]),
        ),
        (
            24,
            row(256, 256, 0, [PINNED, EVICTED, PINNED, PINNED, PINNED]),
        ),
    ];
    let mut events = five_pages(rt.alloc())?;
    load(&mut events)?;
    assert_eq!(rt; follow(&rt, rt.alloc(), events, &rows)?, 25);
    Ok(())
}

fn refuse_and_pin_again(events: &mut Vec<Event>) -> Result<(), AllocError> {
    events.extend([
        Event::Refused {
            call: Call::Pin { page: 0 },
            entry: 21,
        },
        Event::Ask,
        Event::StartWrite { page: 1 },
    ])?;
    load(events)
}

#[test]
fn a_write_that_fails_refuses_the_pin_and_the_next_pin_tries_again(
    rt: HostRuntime,
) -> Result<(), Fail> {
    let rows = [
        (
            22,
            row(192, 256, 0, [EVICTED, DIRTY, PINNED, PINNED, PINNED]),
        ),
        (
            28,
            row(256, 256, 0, [PINNED, EVICTED, PINNED, PINNED, PINNED]),
        ),
    ];
    let mut events = failed_write(rt.alloc())?;
    refuse_and_pin_again(&mut events)?;
    assert_eq!(rt; follow(&rt, rt.alloc(), events, &rows)?, 29);
    Ok(())
}

fn fail_and_load(events: &mut Vec<Event>) -> Result<(), AllocError> {
    evict_and_load(events)?;
    events.extend([
        Event::ReadFailed {
            page: 0,
            before: FaultSum::of(0),
            after: FaultSum::of(1),
        },
        Event::Refused {
            call: Call::Pin { page: 0 },
            entry: 24,
        },
        Event::Ask,
        Event::PinLoad { page: 0 },
        Event::ReadOk { page: 0 },
    ])
}

#[test]
fn a_load_that_fails_refuses_the_pin_and_the_next_pin_tries_again(
    rt: HostRuntime,
) -> Result<(), Fail> {
    let rows = [
        (
            25,
            row(192, 192, 64, [EVICTED, EVICTED, PINNED, PINNED, PINNED]),
        ),
        (
            28,
            row(256, 256, 0, [PINNED, EVICTED, PINNED, PINNED, PINNED]),
        ),
    ];
    let mut events = five_pages(rt.alloc())?;
    fail_and_load(&mut events)?;
    assert_eq!(rt; follow(&rt, rt.alloc(), events, &rows)?, 29);
    Ok(())
}

// Pages 0 and 1 are left.
fn two_dirty(alloc: Global) -> Result<Vec<Event>, AllocError> {
    let mut events = four_pages(alloc)?;
    leave_two(alloc, &mut events)?;
    Ok(events)
}

fn leave_two(alloc: Global, events: &mut Vec<Event>) -> Result<(), AllocError> {
    for page in [0, 1] {
        events.extend([unpin(alloc, page, 0)?])?;
    }
    Ok(())
}

// Page 1 is written, and then page 0.
fn two_clean(alloc: Global) -> Result<Vec<Event>, AllocError> {
    let mut events = two_dirty(alloc)?;
    events.extend([
        Event::StartWrite { page: 1 },
        Event::WriteOk { page: 1 },
        Event::StartWrite { page: 0 },
        Event::WriteOk { page: 0 },
    ])?;
    Ok(events)
}

#[test]
fn pages_move_in_their_turn_and_within_the_reservation(rt: HostRuntime) -> Result<(), Fail> {
    let alloc = rt.alloc();
    refuse(
        &rt,
        alloc,
        four_pages(alloc)?,
        Event::Evict { page: 1 },
        "a pinned page is evicted",
    )?;
    refuse(
        &rt,
        alloc,
        five_pages(alloc)?,
        Event::PinLoad { page: 0 },
        "a pin beyond the reservation",
    )?;
    refuse(
        &rt,
        alloc,
        two_dirty(alloc)?,
        Event::StartWrite { page: 0 },
        "the older dirty page is written first",
    )?;
    refuse(
        &rt,
        alloc,
        two_clean(alloc)?,
        Event::Evict { page: 0 },
        "the newer clean page is evicted first",
    )?;
    Ok(())
}

#[test]
fn what_is_reserved_stays_and_what_is_enabled_is_not_refused(rt: HostRuntime) -> Result<(), Fail> {
    let alloc = rt.alloc();
    refuse(
        &rt,
        alloc,
        four_pages(alloc)?,
        Event::CloseTracker {
            tracker: tracker(CLIENT),
        },
        "a tracker with reservation is closed",
    )?;
    refuse(
        &rt,
        alloc,
        failed_write(alloc)?,
        Event::Refused {
            call: Call::Pin { page: 1 },
            entry: 21,
        },
        "a call that is enabled is refused",
    )?;
    Ok(())
}

#[test]
fn a_refused_call_is_on_what_the_session_has(rt: HostRuntime) -> Result<(), Fail> {
    let alloc = rt.alloc();
    let rows = [
        (
            Call::MoveReservation {
                from: tracker(CLIENT),
                to: tracker(QUERY),
                bytes: 64,
            },
            true,
        ),
        (
            Call::MoveReservation {
                from: tracker(CLIENT),
                to: tracker(OTHER),
                bytes: 64,
            },
            false,
        ),
        (
            Call::MoveBuffer {
                buffer: 0,
                to: tracker(CLIENT),
            },
            false,
        ),
        (
            Call::GiveBack {
                client: tracker(CLIENT),
                bytes: 64,
            },
            true,
        ),
    ];
    for (call, may) in rows {
        let events = failed_write(alloc)?;
        let refused = Event::Refused { call, entry: 21 };
        assert_eq!(rt; may_follow(&rt, alloc, events, refused)?, may);
    }
    Ok(())
}

#[test]
fn makers_have_numbers_of_their_own(rt: HostRuntime) {
    let session = Maker::session(239);
    let writer = Maker::writer(7);
    assert_eq!(rt; (session.number(), writer.number()), (239, 1007));
    assert_eq!(rt; (session.is_session(), session.is_writer()), (true, false));
    assert_eq!(rt; (writer.is_session(), writer.is_writer()), (false, true));
}

#[test]
fn laws_are_calls_that_do_nothing(_rt: HostRuntime) {
    law_trackers();
    law_clients();
    law_room();
    law_sound();
    law_fronts();
    law_names();
    law_count();
    law_made();
    law_owners();
    law_failures();
    law_orders();
    law_rest();
    law_quotas();
    law_refusals();
    law_pins();
    law_sessions();
    law_contents();
    law_versions();
    law_marks();
    law_traces();
}
