//! Worked rows, and each public call once.
use super::*;
use std::process::Abort;
use std::test::Fail;

#[derive(Clone, Copy)]
enum Step {
    Increase(TrackerId, u64),
    Fit(TrackerId, u64),
    Decrease(TrackerId, u64),
    Transfer(TrackerId, TrackerId, u64),
}

fn take(rt: &impl Abort, tree: &mut Tree, step: Step) -> Result<(), PoolErr> {
    match step {
        Step::Increase(t, bytes) => {
            assert!(rt; tree.is_live(t));
            tree.increase(t, bytes)
        }
        Step::Fit(t, bytes) => {
            assert!(rt; tree.is_live(t));
            tree.increase_to_fit(t, bytes)
        }
        Step::Decrease(t, bytes) => {
            assert!(rt; tree.is_live(t));
            assert!(rt; bytes <= tree.unused(t));
            tree.decrease(t, bytes);
            Ok(())
        }
        Step::Transfer(src, dst, bytes) => {
            assert!(rt; tree.is_live(src));
            assert!(rt; tree.is_live(dst));
            assert!(rt; bytes <= tree.unused(src));
            tree.transfer(src, dst, bytes)
        }
    }
}

fn reserved(rt: &impl Abort, tree: &Tree, t: TrackerId) -> u64 {
    assert!(rt; tree.is_live(t));
    tree.reservation(t)
}

fn child(
    rt: &impl Abort,
    tree: &mut Tree,
    parent: TrackerId,
    limit: u64,
) -> Result<TrackerId, PoolErr> {
    assert!(rt; tree.is_live(parent));
    tree.add_child(parent, limit)
}

fn refused(tracker: TrackerId, wanted: u64, room: u64) -> Result<(), PoolErr> {
    Err(PoolErr::NoReservation {
        tracker,
        wanted,
        room,
    })
}

// Takes the step, and compares its answer and then the reservations of these trackers.
fn step_gives(
    rt: &impl Abort,
    tree: &mut Tree,
    step: Step,
    answer: Result<(), PoolErr>,
    after: &[(TrackerId, u64)],
) {
    let given = take(rt, tree, step);
    assert_eq!(rt; given, answer);
    for (t, bytes) in after.iter() {
        assert_eq!(rt; reserved(rt, tree, *t), *bytes);
    }
}

// A query of at most 40 bytes has a client and a sibling of it, of at most 64 and 4 bytes.
fn grow_and_move(rt: &impl Abort, tree: &mut Tree) -> Result<(), PoolErr> {
    let root = tree.root();
    let query = child(rt, tree, root, 40)?;
    let client = child(rt, tree, query, 64)?;
    let sibling = child(rt, tree, query, 4)?;
    let rows = [
        (Step::Increase(client, 32), Ok(()), [32, 32, 32, 0]),
        (
            Step::Increase(client, 16),
            refused(query, 16, 8),
            [32, 32, 32, 0],
        ),
        (
            Step::Transfer(client, sibling, 8),
            refused(sibling, 8, 4),
            [32, 32, 32, 0],
        ),
        (Step::Transfer(client, sibling, 4), Ok(()), [32, 32, 28, 4]),
        (Step::Transfer(client, query, 8), Ok(()), [32, 32, 20, 4]),
        (Step::Transfer(client, client, 8), Ok(()), [32, 32, 20, 4]),
        (Step::Increase(client, 8), Ok(()), [32, 32, 28, 4]),
        (Step::Fit(client, 28), Ok(()), [32, 32, 28, 4]),
        (
            Step::Increase(sibling, u64::MAX),
            refused(sibling, u64::MAX, 0),
            [32, 32, 28, 4],
        ),
        (Step::Decrease(client, 28), Ok(()), [4, 4, 0, 4]),
    ];
    for (step, answer, [a, b, c, d]) in rows {
        let after = [(root, a), (query, b), (client, c), (sibling, d)];
        step_gives(rt, tree, step, answer, &after);
    }
    Ok(())
}

#[test]
fn growths_and_moves_fit_or_name_the_lowest_limit(rt: HostRuntime) -> Result<(), Fail> {
    let mut tree = Tree::open(rt.alloc(), 64)?;
    grow_and_move(&rt, &mut tree)?;
    Ok(())
}

fn grow_under_a_query(rt: &impl Abort, tree: &mut Tree) -> Result<(), PoolErr> {
    let root = tree.root();
    let query = child(rt, tree, root, 64)?;
    let client = child(rt, tree, query, 64)?;
    let rows = [
        (Step::Increase(query, 16), [16, 16, 0]),
        (Step::Increase(client, 24), [24, 24, 24]),
        (Step::Decrease(client, 8), [16, 16, 16]),
    ];
    for (step, [a, b, c]) in rows {
        let after = [(root, a), (query, b), (client, c)];
        step_gives(rt, tree, step, Ok(()), &after);
    }
    Ok(())
}

#[test]
fn a_parent_covers_a_growth_by_what_it_has_unused(rt: HostRuntime) -> Result<(), Fail> {
    let mut tree = Tree::open(rt.alloc(), 64)?;
    grow_under_a_query(&rt, &mut tree)?;
    Ok(())
}

// Charges 5 bytes of 8 to the tracker, and takes 2 of them back.
fn charge_three(rt: &impl Abort, tree: &mut Tree, t: TrackerId) {
    step_gives(rt, tree, Step::Increase(t, 8), Ok(()), &[]);
    assert!(rt; tree.is_live(t));
    assert!(rt; tree.unused(t) >= 5);
    tree.charge(t, 5);
    assert!(rt; tree.is_live(t));
    assert!(rt; tree.used(t) >= 2);
    tree.release(t, 2);
}

// What is charged to the tracker, what its children have, and its limit.
fn amounts(rt: &impl Abort, tree: &Tree, t: TrackerId) -> (u64, u64, u64) {
    assert!(rt; tree.is_live(t));
    (tree.used(t), tree.children(t), tree.limit(t))
}

fn grow_to_fit(rt: &impl Abort, tree: &mut Tree) {
    let root = tree.root();
    charge_three(rt, tree, root);
    let rows = [
        (Step::Fit(root, 4), Ok(()), 8),
        (Step::Fit(root, 5), Ok(()), 8),
        (Step::Fit(root, 6), Ok(()), 9),
        (
            Step::Increase(root, u64::MAX),
            refused(root, u64::MAX, 55),
            9,
        ),
    ];
    for (step, answer, after) in rows {
        step_gives(rt, tree, step, answer, &[(root, after)]);
    }
    assert_eq!(rt; amounts(rt, tree, root), (3, 0, 64));
}

#[test]
fn a_growth_to_fit_looks_at_what_is_unused(rt: HostRuntime) -> Result<(), Fail> {
    let mut tree = Tree::open(rt.alloc(), 64)?;
    grow_to_fit(&rt, &mut tree);
    Ok(())
}

fn fill(rt: &impl Abort, tree: &mut Tree, root: TrackerId) -> Result<(), PoolErr> {
    for _child in 1..MAX_TRACKERS {
        let newest = child(rt, tree, root, 1)?;
        assert!(rt; newest.number() < MAX_TRACKERS);
    }
    Ok(())
}

#[test]
fn so_many_trackers_may_be_live(rt: HostRuntime) -> Result<(), Fail> {
    let mut tree = Tree::open(rt.alloc(), 1)?;
    let root = tree.root();
    fill(&rt, &mut tree, root)?;
    assert_eq!(rt;
        child(&rt, &mut tree, root, 1),
        Err(PoolErr::TooManyTrackers { count: 4096 })
    );
    Ok(())
}

// Each tracker stands under the one before it.
fn grow_at_the_end(rt: &impl Abort, tree: &mut Tree) -> Result<(), PoolErr> {
    let root = tree.root();
    let mut lowest = root;
    for _child in 1..MAX_TRACKERS {
        lowest = child(rt, tree, lowest, 9)?;
    }
    let rows = [
        (Step::Increase(lowest, 7), 7),
        (Step::Transfer(lowest, root, 2), 7),
        (Step::Transfer(root, lowest, 2), 7),
        (Step::Decrease(lowest, 3), 4),
    ];
    for (step, after) in rows {
        step_gives(rt, tree, step, Ok(()), &[(root, after)]);
    }
    Ok(())
}

#[test]
fn a_way_may_be_as_long_as_there_are_trackers(rt: HostRuntime) -> Result<(), Fail> {
    let mut tree = Tree::open(rt.alloc(), 9)?;
    grow_at_the_end(&rt, &mut tree)?;
    Ok(())
}

// The numbers of a tracker that is closed and of the one that is opened next.
fn open_close_open(rt: &impl Abort, tree: &mut Tree) -> Result<(u32, u32), PoolErr> {
    let root = tree.root();
    tree.law_fits();
    let first = tree.add_child(root, 1)?;
    tree.close(first);
    assert!(rt; !tree.is_live(first));
    let second = child(rt, tree, root, 1)?;
    Ok((first.number(), second.number()))
}

#[test]
fn a_number_comes_again(rt: HostRuntime) -> Result<(), Fail> {
    let mut tree = Tree::open(rt.alloc(), 9)?;
    assert_eq!(rt; tree.root(), TrackerId::of(0));
    let (first, second) = open_close_open(&rt, &mut tree)?;
    assert_eq!(rt; second, first);
    Ok(())
}

#[test]
fn a_mark_is_three_numbers_with_their_highest_bytes_first(rt: HostRuntime) -> Result<(), Fail> {
    let rows = [
        (
            (0, 14, 0),
            [
                0, 0, 0, 0, 0, 0, 0, 0, 0, 0, 0, 0, 0, 0, 0, 14, 0, 0, 0, 0, 17,
            ],
        ),
        (
            (1, 20, 0),
            [
                0, 0, 0, 0, 0, 0, 0, 1, 0, 0, 0, 0, 0, 0, 0, 20, 0, 0, 0, 0, 17,
            ],
        ),
        (
            (0x0102030405060708, 0x090a0b0c0d0e0f10, 0x11121314),
            [
                1, 2, 3, 4, 5, 6, 7, 8, 9, 10, 11, 12, 13, 14, 15, 16, 17, 18, 19, 20, 17,
            ],
        ),
    ];
    for ((name, version, block), written) in rows {
        let mark = Mark {
            name,
            version,
            block,
        };
        let mut bytes = [17u8; 21];
        mark.write(&mut bytes);
        assert_eq!(rt; bytes, written);
        assert_eq!(rt; Mark::read(&bytes), mark);
    }
    assert_eq!(rt; MARK_LEN, 20);
    Ok(())
}
