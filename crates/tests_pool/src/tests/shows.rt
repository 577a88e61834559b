//! What the pool of one owner shows, each asked for first.

use super::owner::Own;
use super::steps;
use block_arena::Buf;
use page_table::Place;
use pool_questions::{entry_of, is_seat, is_tracker};
use reservation_tree::TrackerId;
use std::process::Abort;
use store_api::{Client, Page};

/// What the root, the query and a client have reserved.
pub fn reservations(rt: &impl Abort, pool: &Own, c: &Client) -> [u64; 3] {
    let value = pool.value();
    assert!(rt; is_seat(value, pool.session()));
    let mut found = [0; 3];
    let trackers = [TrackerId::of(0), value.tracker(pool.session()), c.tracker()];
    for (at, tracker) in trackers.into_iter().enumerate() {
        assert!(rt; is_tracker(value, tracker));
        found[at] = value.reservation(tracker);
    }
    found
}

/// How many entries the pool has made.
pub fn entries(pool: &Own) -> u64 {
    pool.value().parts().entries
}

/// How many blocks are free.
pub fn free_blocks(pool: &Own) -> u32 {
    pool.value().parts().arena.free()
}

pub fn place(rt: &impl Abort, pool: &Own, p: &Page) -> Place {
    match entry_of(pool.value(), p) {
        Some(entry) => entry.place,
        None => panic!(rt; "the page is live"),
    }
}

/// The bytes that are charged to a client.
pub fn charge(rt: &impl Abort, pool: &Own, c: &Client) -> u64 {
    steps::charge(rt, pool.value(), c)
}

/// The byte that all of a buffer shows.
pub fn shown(rt: &impl Abort, buf: &Buf) -> u8 {
    let mut bytes = [0; 64];
    assert!(rt; buf.len() == 64);
    buf.read_at(0, &mut bytes);
    assert!(rt; bytes == [bytes[0]; 64]);
    bytes[0]
}
