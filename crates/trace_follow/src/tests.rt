//! Traces, followed entry by entry.
use super::*;
use pool_model::{Bare, Call, Skeleton};
use reservation_tree::{Mark, TrackerId};
use std::alloc::{AllocError, Global};
use std::test::Fail;

const OPENED: Opened = Opened {
    blocks: 4,
    block_len: 64,
    first_name: 0,
};

const QUERY: u32 = 1;

const CLIENT: u32 = 2;

fn by(maker: u32, event: Bare) -> Skeleton {
    Skeleton {
        writer: maker >= 1000,
        maker,
        event,
    }
}

fn add(tracker: u32, parent: u32, quota: Option<u32>) -> Bare {
    Bare::AddTracker {
        tracker: TrackerId::of(tracker),
        parent: TrackerId::of(parent),
        limit: 256,
        quota,
    }
}

fn increase(tracker: u32, bytes: u64) -> Bare {
    Bare::Increase {
        tracker: TrackerId::of(tracker),
        bytes,
    }
}

fn create(page: u64) -> Bare {
    Bare::Create {
        page,
        client: TrackerId::of(CLIENT),
        blocks: 1,
    }
}

// A session with a query and a client that reserve all memory.
fn opening() -> [Bare; 4] {
    [
        add(QUERY, 0, Some(8)),
        increase(QUERY, 256),
        add(CLIENT, QUERY, None),
        increase(CLIENT, 256),
    ]
}

// How many of these entries a follower takes, before it refuses one.
fn followed(alloc: Global, entries: &[Skeleton]) -> Result<usize, AllocError> {
    let mut follower = Follower::open(alloc, &OPENED)?;
    for (place, entry) in entries.iter().enumerate() {
        if !follower.follow(entry)? {
            return Ok(place);
        }
    }
    Ok(entries.len())
}

// The opening by session 0, and these entries behind it.
fn behind_opening(alloc: Global, more: &[Skeleton]) -> Result<usize, AllocError> {
    let mut entries = Vec::new(alloc);
    for event in opening() {
        entries.push(by(0, event))?;
    }
    entries.extend_from_slice(more)?;
    followed(alloc, entries.as_slice())
}

#[test]
fn an_entry_is_followed_or_refused(rt: HostRuntime) -> Result<(), Fail> {
    let rows = [
        (by(0, Bare::Ask), 5),
        (by(1000, Bare::Ask), 4),
        (by(240, Bare::Ask), 4),
        (
            Skeleton {
                writer: false,
                maker: 1000,
                event: Bare::Ask,
            },
            4,
        ),
        (
            Skeleton {
                writer: true,
                maker: 0,
                event: Bare::Ask,
            },
            4,
        ),
        (by(0, create(0)), 5),
        (by(0, create(1)), 4),
        (by(1, create(0)), 4),
        (by(0, increase(CLIENT, 1)), 4),
        (by(0, add(3, QUERY, None)), 5),
        (by(1, add(3, QUERY, None)), 4),
        (by(1, add(3, 0, Some(1))), 5),
        (by(0, Bare::Evict { page: 0 }), 4),
    ];
    for (entry, count) in rows {
        assert_eq!(rt; behind_opening(rt.alloc(), &[entry])?, count);
    }
    Ok(())
}

#[test]
fn a_growth_past_the_memory_is_refused(rt: HostRuntime) -> Result<(), Fail> {
    let entries = [
        by(0, add(QUERY, 0, Some(8))),
        by(0, increase(QUERY, 257)),
        by(0, add(CLIENT, QUERY, None)),
    ];
    assert_eq!(rt; followed(rt.alloc(), &entries)?, 1);
    Ok(())
}

#[test]
fn a_pinned_page_is_not_evicted(rt: HostRuntime) -> Result<(), Fail> {
    let more = [by(0, create(0)), by(0, Bare::Evict { page: 0 })];
    assert_eq!(rt; behind_opening(rt.alloc(), &more)?, 5);
    Ok(())
}

// Pages are written, evicted and loaded, and the first load of page 0 ends so.
fn spill(alloc: Global, read: &Bare) -> Result<usize, AllocError> {
    let events = [
        Bare::Ask,
        create(0),
        Bare::Ask,
        create(1),
        Bare::Ask,
        create(2),
        Bare::Ask,
        create(3),
        Bare::Unpin { page: 0 },
        Bare::Ask,
        Bare::StartWrite { page: 0 },
        Bare::WriteOk { page: 0 },
        Bare::Evict { page: 0 },
        create(4),
        Bare::Unpin { page: 1 },
        Bare::Ask,
        Bare::StartWrite { page: 1 },
        Bare::WriteFailed { page: 1 },
        Bare::Refused {
            call: Call::Pin { page: 0 },
            entry: 21,
        },
        Bare::Ask,
        Bare::StartWrite { page: 1 },
        Bare::WriteOk { page: 1 },
        Bare::Evict { page: 1 },
        Bare::PinLoad { page: 0 },
        *read,
        Bare::Refused {
            call: Call::Pin { page: 0 },
            entry: 28,
        },
        Bare::PinLoad { page: 0 },
        Bare::ReadOk { page: 0 },
        Bare::Extract { page: 0, buffer: 7 },
        Bare::MoveBuffer {
            buffer: 7,
            to: TrackerId::of(CLIENT),
        },
    ];
    let mut more = Vec::new(alloc);
    for event in events {
        more.push(by(0, event))?;
    }
    behind_opening(alloc, more.as_slice())
}

fn mark(version: u64) -> Mark {
    Mark {
        name: 0,
        version,
        block: 0,
    }
}

#[test]
fn a_pool_that_spills_is_followed(rt: HostRuntime) -> Result<(), Fail> {
    let rows = [
        (Bare::ReadFailed { page: 0 }, 33),
        (
            Bare::ReadStale {
                wanted: mark(14),
                found: mark(13),
            },
            33,
        ),
        (
            Bare::ReadStale {
                wanted: mark(13),
                found: mark(14),
            },
            28,
        ),
        (
            Bare::ReadStale {
                wanted: mark(14),
                found: mark(14),
            },
            28,
        ),
    ];
    for (read, count) in rows {
        assert_eq!(rt; spill(rt.alloc(), &read)?, count);
    }
    Ok(())
}
