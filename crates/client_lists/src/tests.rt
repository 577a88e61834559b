//! Lists of clients against plain lists.
ghost use Rattle.std.specs.Prelude.{◌≡◌, ◌<◌, ◌≤◌, IsTrue, length};
ghost use Rattle.client_lists.specs.Clients.{IsOn, IsOpen, longest};

use crate::which::place;
use crate::{ClientLists, Which};
use std::alloc::Global;
use std::process::Abort;
use std::test::Fail;

#[test]
fn pages_come_move_and_leave_with_their_lengths(rt: HostRuntime) -> Result<(), Fail> {
    let mut lists = ClientLists::with(rt.alloc(), 2, 4)?;
    lists.open(1);
    lists.close(1);
    lists.open(1);
    lists.push(1, Which::Dirty, 3, 64);
    lists.push(1, Which::Dirty, 0, 128);
    assert_eq!(rt;
        (
            lists.sum(1, Which::Dirty),
            lists.newest_dirty(1),
            lists.some_dirty()
        ),
        (192, Some(0), Some(1))
    );
    lists.shift(1, 0, Which::Flying);
    assert_eq!(rt;
        (
            lists.sum(1, Which::Dirty),
            lists.sum(1, Which::Flying),
            lists.newest_dirty(1)
        ),
        (64, 128, Some(3))
    );
    lists.law_whole();
    lists.take_out(1, 3);
    assert_eq!(rt;
        (
            lists.sum(1, Which::Dirty),
            lists.newest_dirty(1),
            lists.some_dirty()
        ),
        (0, None, None)
    );
    Ok(())
}

/// What a turn did.
#[derive(Clone, Copy, PartialEq, Eq, Drop)]
enum Done {
    Pushed,
    Shifted,
    TakenOut,
    Nothing,
}

fn is_on(lists: &ClientLists, client: u32, node: u32) -> bool
    requires client_in { client < 2 }
    requires node_in { node < lists.now.pages.lists.nodes }
    ensures { IsTrue result → IsOn client node lists.now }
{
    let list = lists.list_of(node);
    if list == Some(place(client, Which::Pinned)) {
        return true;
    }
    if list == Some(place(client, Which::Dirty)) {
        return true;
    }
    list == Some(place(client, Which::Flying))
}

// Puts a node on a list, moves it there, or takes it off its list.
fn turn(lists: &mut ClientLists, client: u32, to: Which, node: u32, len: u64, leaves: bool) -> Done
    requires client_in { client < 2 }
    requires open { IsOpen client lists.old }
    requires node_in { node < lists.old.pages.lists.nodes }
    requires len { len ≤ longest }
    ensures open { lists.new.is_open ≡ lists.old.is_open }
    ensures nodes { lists.new.pages.lists.nodes ≡ lists.old.pages.lists.nodes }
{
    if lists.list_of(node).is_none() {
        lists.push(client, to, node, len);
        return Done::Pushed;
    }
    if !is_on(lists, client, node) {
        return Done::Nothing;
    }
    if leaves {
        lists.take_out(client, node);
        return Done::TakenOut;
    }
    lists.shift(client, node, to);
    Done::Shifted
}

/// The nodes on each list, list by list, each with its length.
type Rows = [Vec<(u32, u64)>; 6];

// The same turn on plain lists.
fn turn_plain(
    plain: &mut Rows,
    client: u32,
    to: Which,
    node: u32,
    len: u64,
    done: Done,
) -> Result<(), Fail>
    requires { client < 2 }
{
    let mut kept = len;
    if done != Done::Pushed {
        for row in plain.iter_mut() {
            for (other, had) in row.iter() {
                if *other == node {
                    kept = *had;
                }
            }
            row.retain(|(other, _)| *other != node);
        }
    }
    if done != Done::TakenOut {
        plain[place(client, to) as usize].push((node, kept))?;
    }
    Ok(())
}

// What the readers say of a client is what the plain lists say.
fn agrees(lists: &ClientLists, plain: &Rows, client: u32) -> bool
    requires client_in { client < 2 }
    requires clients { length lists.now.is_open ≡ 2 }
{
    for which in [Which::Pinned, Which::Dirty, Which::Flying] {
        let mut sum: u64 = 0;
        for (_, len) in plain[place(client, which) as usize].iter() {
            sum = sum.wrapping_add(*len);
        }
        if lists.sum(client, which) != sum {
            return false;
        }
    }
    let dirty = &plain[place(client, Which::Dirty) as usize];
    lists.newest_dirty(client) == dirty.last().map(|(node, _)| *node)
}

fn matches_plain_lists(rt: &impl Abort, alloc: Global, stride: u32) -> Result<(), Fail> {
    let mut lists = ClientLists::with(alloc, 2, 7)?;
    lists.open(0);
    lists.open(1);
    let mut plain = [
        Vec::new(alloc),
        Vec::new(alloc),
        Vec::new(alloc),
        Vec::new(alloc),
        Vec::new(alloc),
        Vec::new(alloc),
    ];
    for number in 0..80u32 {
        let node = number * (stride % 100) % 7;
        let client = node % 2;
        let to = [Which::Pinned, Which::Dirty, Which::Flying][(number / 2 % 3) as usize];
        let len = u64::from(number * 64 + 1);
        let done = turn(&mut lists, client, to, node, len, number % 5 == 4);
        turn_plain(&mut plain, client, to, node, len, done)?;
        assert!(rt;
            agrees(&lists, &plain, 0) && agrees(&lists, &plain, 1),
            "{number} by {stride}"
        );
        let some = lists.some_dirty();
        let clean = [plain[1].is_empty(), plain[4].is_empty()];
        assert!(rt;
            match some {
                Some(0) => !clean[0],
                Some(1) => !clean[1],
                Some(_) => false,
                None => clean[0] && clean[1],
            },
            "{number} by {stride}"
        );
    }
    Ok(())
}

#[test]
fn mixed_turns_match_plain_lists(rt: HostRuntime) -> Result<(), Fail> {
    for stride in 1..=6 {
        matches_plain_lists(&rt, rt.alloc(), stride)?;
    }
    Ok(())
}
