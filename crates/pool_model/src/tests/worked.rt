//! Worked histories, for the tests.
use crate::tests::plain_pool::{Place, PlainPool};
use crate::{Content, Entry, Event, FaultSum, Maker};
use reservation_tree::TrackerId;
use std::alloc::{AllocError, Global};
use std::process::Abort;

pub const QUERY: u32 = 1;

pub const CLIENT: u32 = 2;

pub const OTHER: u32 = 3;
/// What there is after some entries: reservations of root, query and client, the client's charge and what it
/// holds, free bytes, and the places of the pages 0 to 4.
#[derive(Clone, Copy)]
pub struct After {
    reserved: [u64; 3],
    charge: u64,
    held: u64,
    free: u64,
    places: [Option<Place>; 5],
}

pub fn compare(rt: &impl Abort, pool: &PlainPool, after: &After) {
    let at = pool.entries;
    for (t, bytes) in [0, QUERY, CLIENT].into_iter().zip(after.reserved) {
        assert_eq!(rt; pool.reservation(t), bytes, "reservation of {t} at {at}");
    }
    assert_eq!(rt; pool.charge(CLIENT), after.charge, "charge at {at}");
    assert_eq!(rt; pool.held(CLIENT), after.held, "held at {at}");
    assert_eq!(rt; pool.free(), after.free, "free at {at}");
    for (page, place) in (0u64..).zip(after.places) {
        assert_eq!(rt; pool.place(page), place, "page {page} at {at}");
    }
}

pub fn tracker(number: u32) -> TrackerId {
    TrackerId::of(number)
}

pub fn create(page: u64) -> Event {
    Event::Create {
        page,
        client: tracker(CLIENT),
        blocks: 1,
        key: 0,
    }
}

pub fn unpin(alloc: Global, page: u64, byte: u8) -> Result<Event, AllocError> {
    let bytes = Vec::from_elem(alloc, byte, 64)?;
    Ok(Event::Unpin {
        page,
        content: Content::of(bytes),
    })
}

/// One session with 256 bytes reserved, and one client with so many: entries 0 to 3.
pub fn one_client(alloc: Global, bytes: u64) -> Result<Vec<Event>, AllocError> {
    let mut events = Vec::new(alloc);
    events.extend([
        Event::AddTracker {
            tracker: tracker(QUERY),
            parent: tracker(0),
            limit: 256,
            quota: Some(8),
        },
        Event::Increase {
            tracker: tracker(QUERY),
            bytes: 256,
        },
        Event::AddTracker {
            tracker: tracker(CLIENT),
            parent: tracker(QUERY),
            limit: 256,
            quota: None,
        },
        Event::Increase {
            tracker: tracker(CLIENT),
            bytes,
        },
    ])?;
    Ok(events)
}

fn ask_and_create(events: &mut Vec<Event>, pages: u64) -> Result<(), AllocError> {
    for page in 0..pages {
        events.extend([Event::Ask, create(page)])?;
    }
    Ok(())
}

/// One client with 256 bytes reserved, and four pages of one block: entries 0 to 11.
pub fn four_pages(alloc: Global) -> Result<Vec<Event>, AllocError> {
    let mut events = one_client(alloc, 256)?;
    ask_and_create(&mut events, 4)?;
    Ok(events)
}

/// Page 0 is left, written and evicted for page 4, and page 1 is left: entries 12 to 18. Then page 0 is asked
/// for, and page 1 is taken to be written: entries 19 and 20.
pub fn five_pages(alloc: Global) -> Result<Vec<Event>, AllocError> {
    let mut events = four_pages(alloc)?;
    fifth_page(alloc, &mut events)?;
    Ok(events)
}

fn fifth_page(alloc: Global, events: &mut Vec<Event>) -> Result<(), AllocError> {
    events.extend([
        unpin(alloc, 0, 0x11)?,
        Event::Ask,
        Event::StartWrite { page: 0 },
        Event::WriteOk { page: 0 },
        Event::Evict { page: 0 },
        create(4),
    ])?;
    events.extend([
        unpin(alloc, 1, 0x22)?,
        Event::Ask,
        Event::StartWrite { page: 1 },
    ])
}

pub fn evict_and_load(events: &mut Vec<Event>) -> Result<(), AllocError> {
    events.extend([
        Event::WriteOk { page: 1 },
        Event::Evict { page: 1 },
        Event::PinLoad { page: 0 },
    ])
}

pub fn write_failed(page: u64) -> Event {
    Event::WriteFailed {
        page,
        before: FaultSum::of(0),
        after: FaultSum::of(1),
    }
}

/// The same five pages, and the write of page 1 failed: entry 21.
pub fn failed_write(alloc: Global) -> Result<Vec<Event>, AllocError> {
    let mut events = five_pages(alloc)?;
    events.extend([write_failed(1)])?;
    Ok(events)
}

/// A pool of four blocks of 64 bytes.
pub fn four_blocks(alloc: Global) -> Result<PlainPool, AllocError> {
    PlainPool::open(alloc, 4, 64)
}

/// Enters the session's event where it may follow, and tells whether it could.
pub fn enter(pool: &mut PlainPool, event: Event) -> Result<bool, AllocError> {
    let entry = Entry {
        maker: Maker::session(0),
        event,
    };
    pool.enter(&entry)
}

/// Enters the event, which may follow.
pub fn go_on(rt: &impl Abort, pool: &mut PlainPool, event: Event) -> Result<(), AllocError> {
    let number = pool.entries;
    let may = enter(pool, event)?;
    assert!(rt; may, "entry {number}");
    Ok(())
}

/// Enters these, each of which may follow. After those that are named the pool is as the rows say.
pub fn enter_all(
    rt: &impl Abort,
    pool: &mut PlainPool,
    events: Vec<Event>,
    rows: &[(u64, After)],
) -> Result<(), AllocError> {
    for event in events {
        let number = pool.entries;
        go_on(rt, pool, event)?;
        compare_at(rt, pool, number, rows);
    }
    Ok(())
}

fn compare_at(rt: &impl Abort, pool: &PlainPool, number: u64, rows: &[(u64, After)]) {
    for (at, after) in rows.iter() {
        if *at == number {
            compare(rt, pool, after);
        }
    }
}

/// How many entries a pool has after these, which are as `enter_all` says.
pub fn follow(
    rt: &impl Abort,
    alloc: Global,
    events: Vec<Event>,
    rows: &[(u64, After)],
) -> Result<u64, AllocError> {
    let mut pool = four_blocks(alloc)?;
    enter_all(rt, &mut pool, events, rows)?;
    Ok(pool.entries)
}

/// Whether the event may follow these.
pub fn may_follow(
    rt: &impl Abort,
    alloc: Global,
    events: Vec<Event>,
    event: Event,
) -> Result<bool, AllocError> {
    let mut pool = four_blocks(alloc)?;
    enter_all(rt, &mut pool, events, &[])?;
    enter(&mut pool, event)
}

/// The event may not follow these.
pub fn refuse(
    rt: &impl Abort,
    alloc: Global,
    events: Vec<Event>,
    event: Event,
    why: &str,
) -> Result<(), AllocError> {
    let may = may_follow(rt, alloc, events, event)?;
    assert!(rt; !may, "{why}");
    Ok(())
}

pub const ALL: [u64; 3] = [256; 3];

pub const PINNED: Option<Place> = Some(Place::Pinned(1));

pub const DIRTY: Option<Place> = Some(Place::Dirty);

pub const EVICTED: Option<Place> = Some(Place::Evicted);

pub const FLYING: Option<Place> = Some(Place::Flying(0));

pub const CLEAN: Option<Place> = Some(Place::Clean);

/// A page with so many pins.
pub fn pins(count: u32) -> Option<Place> {
    Some(Place::Pinned(count))
}

/// The same where the client has 192 bytes reserved.
pub fn with_192(row: After) -> After {
    After {
        reserved: [256, 256, 192],
        ..row
    }
}

pub fn row(charge: u64, held: u64, free: u64, places: [Option<Place>; 5]) -> After {
    After {
        reserved: ALL,
        charge,
        held,
        free,
        places,
    }
}

/// A client with 192 bytes reserved has two pages. Page 0 is left, page 1 is pinned twice and is to be pinned
/// once more, and page 0 is taken to be written: entries 0 to 12.
pub fn pinned_twice(alloc: Global) -> Result<Vec<Event>, AllocError> {
    let mut events = one_client(alloc, 192)?;
    pin_twice(alloc, &mut events)?;
    Ok(events)
}

fn pin_twice(alloc: Global, events: &mut Vec<Event>) -> Result<(), AllocError> {
    ask_and_create(events, 2)?;
    events.extend([
        unpin(alloc, 0, 0x11)?,
        Event::Ask,
        Event::PinAgain { page: 1 },
        Event::Ask,
        Event::StartWrite { page: 0 },
    ])
}

/// Two clients of 128 and 64 bytes under the query of 256: the clients 2 and 3.
pub fn two_clients(alloc: Global) -> Result<Vec<Event>, AllocError> {
    let mut events = Vec::new(alloc);
    add_two_clients(&mut events)?;
    Ok(events)
}

fn add_two_clients(events: &mut Vec<Event>) -> Result<(), AllocError> {
    events.extend([Event::AddTracker {
        tracker: tracker(QUERY),
        parent: tracker(0),
        limit: 256,
        quota: Some(1),
    }])?;
    for (client, bytes) in [(CLIENT, 128), (OTHER, 64)] {
        events.extend([
            Event::AddTracker {
                tracker: tracker(client),
                parent: tracker(QUERY),
                limit: 256,
                quota: None,
            },
            Event::IncreaseToFit {
                tracker: tracker(client),
                bytes,
            },
        ])?;
    }
    Ok(())
}
