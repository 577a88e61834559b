//! Loads that give another block than the wanted one, and what a trace keeps of them.

use crate::tests::worked::{EVICTED, PINNED, evict_and_load, five_pages, follow, may_follow, row};
use crate::{Bare, Call, Event, Maker, Skeleton};
use reservation_tree::Mark;
use std::alloc::{AllocError, Global};
use std::test::Fail;

fn mark(name: u64, version: u64, block: u32) -> Mark {
    Mark {
        name,
        version,
        block,
    }
}

// Page 0, whose write began with entry 14, is being loaded: entries 0 to 23.
fn loading(alloc: Global) -> Result<Vec<Event>, AllocError> {
    let mut events = five_pages(alloc)?;
    evict_and_load(&mut events)?;
    Ok(events)
}

fn stale() -> Event {
    Event::ReadStale {
        page: 0,
        wanted: mark(0, 14, 0),
        found: mark(1, 20, 0),
    }
}

fn refused() -> Event {
    Event::Refused {
        call: Call::Pin { page: 0 },
        entry: 24,
    }
}

fn load_stale_and_pin_again(events: &mut Vec<Event>) -> Result<(), AllocError> {
    events.extend([
        stale(),
        refused(),
        Event::Ask,
        Event::PinLoad { page: 0 },
        Event::ReadOk { page: 0 },
    ])
}

#[test]
fn a_stale_load_refuses_the_pin_and_the_next_pin_tries_again(rt: HostRuntime) -> Result<(), Fail> {
    let rows = [
        (
            24,
            row(192, 192, 64, [EVICTED, EVICTED, PINNED, PINNED, PINNED]),
        ),
        (
            25,
            row(192, 192, 64, [EVICTED, EVICTED, PINNED, PINNED, PINNED]),
        ),
        (
            28,
            row(256, 256, 0, [PINNED, EVICTED, PINNED, PINNED, PINNED]),
        ),
    ];
    let mut events = loading(rt.alloc())?;
    load_stale_and_pin_again(&mut events)?;
    assert_eq!(rt; follow(&rt, rt.alloc(), events, &rows)?, 29);
    Ok(())
}

#[test]
fn the_wanted_mark_is_that_of_the_last_write(rt: HostRuntime) -> Result<(), Fail> {
    let rows = [
        (mark(0, 14, 0), mark(1, 20, 0), true),
        (mark(0, 14, 0), mark(0, 14, 1), true),
        (mark(0, 14, 0), mark(0, 14, 0), false),
        (mark(0, 13, 0), mark(1, 20, 0), false),
        (mark(1, 14, 0), mark(1, 20, 0), false),
        (mark(0, 14, 1), mark(1, 20, 0), false),
    ];
    for (wanted, found, may) in rows {
        let event = Event::ReadStale {
            page: 0,
            wanted,
            found,
        };
        let follows = may_follow(&rt, rt.alloc(), loading(rt.alloc())?, event)?;
        assert_eq!(rt; follows, may, "{wanted:?} {found:?}");
    }
    Ok(())
}

#[test]
fn a_trace_keeps_the_maker_and_the_two_marks(rt: HostRuntime) {
    let rows = [
        (
            Maker::session(3),
            stale(),
            Skeleton {
                writer: false,
                maker: 3,
                event: Bare::ReadStale {
                    wanted: mark(0, 14, 0),
                    found: mark(1, 20, 0),
                },
            },
        ),
        (
            Maker::writer(2),
            Event::WriteOk { page: 5 },
            Skeleton {
                writer: true,
                maker: 1002,
                event: Bare::WriteOk { page: 5 },
            },
        ),
    ];
    for (maker, event, kept) in rows {
        assert_eq!(rt; Skeleton::of(maker, &event), kept);
    }
}
