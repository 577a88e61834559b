//! Lists of nodes against plain lists.
ghost use Rattle.std.specs.Prelude.{◌≡◌, ◌<◌, length};

use index_list::Lists;
use std::alloc::Global;
use std::process::Abort;
use std::test::Fail;

#[test]
fn a_node_comes_to_the_back_and_leaves_from_the_front(rt: HostRuntime) -> Result<(), Fail> {
    let mut lists = Lists::with(rt.alloc(), 4, 2)?;
    lists.push_back(0, 3);
    lists.push_back(0, 1);
    lists.push_back(1, 0);
    assert_eq!(rt;
        (lists.front(0), lists.next(3), lists.next(1), lists.back(0)),
        (Some(3), Some(1), None, Some(1))
    );
    assert_eq!(rt;
        (lists.front(1), lists.next(0), lists.back(1)),
        (Some(0), None, Some(0))
    );
    assert_eq!(rt;
        (lists.list_of(3), lists.list_of(0), lists.list_of(2)),
        (Some(0), Some(1), None)
    );
    lists.remove(3);
    assert_eq!(rt;
        (lists.front(0), lists.back(0), lists.next(1)),
        (Some(1), Some(1), None)
    );
    assert_eq!(rt;
        (lists.front(1), lists.list_of(3), lists.next(3)),
        (Some(0), None, None)
    );
    Ok(())
}

// The nodes of a list, found by its front and what follows each.
fn nodes_of(alloc: Global, lists: &Lists, nodes: u32, list: u32) -> Result<Vec<u32>, Fail>
    requires nodes { nodes ≡ lists.now.nodes }
    requires list_in { list < length lists.now.lists }
{
    let mut found = Vec::new(alloc);
    let mut at = lists.front(list);
    for _ in 0..=nodes {
        let Some(node) = at else { break };
        found.push(node)?;
        at = if node < nodes { lists.next(node) } else { None };
    }
    Ok(found)
}

// Puts a node on a list, or takes it off the list that it is on.
fn turn(lists: &mut Lists, list: u32, node: u32) -> bool
    requires list_in { list < length lists.old.lists }
    requires node_in { node < lists.old.nodes }
    ensures nodes { lists.new.nodes ≡ lists.old.nodes }
    ensures count { length lists.new.lists ≡ length lists.old.lists }
{
    if lists.list_of(node).is_some() {
        lists.remove(node);
        return false;
    }
    lists.push_back(list, node);
    true
}

fn matches_plain_lists(rt: &impl Abort, alloc: Global, step: u32) -> Result<(), Fail> {
    let mut lists = Lists::with(alloc, 7, 2)?;
    let mut plain = [Vec::new(alloc), Vec::new(alloc)];
    for turn_no in 0..60u32 {
        let node = turn_no * (step % 100) % 7;
        let list = turn_no / 3 % 2;
        if turn(&mut lists, list, node) {
            plain[list as usize].push(node)?;
        } else {
            plain[0].retain(|other| *other != node);
            plain[1].retain(|other| *other != node);
        }
        for (number, want) in plain.iter().enumerate() {
            let list = number as u32;
            assert_eq!(rt;
                nodes_of(alloc, &lists, 7, list)?.as_slice(),
                want.as_slice(),
                "{turn_no} by {step}"
            );
            assert_eq!(rt;
                lists.back(list),
                want.last().copied(),
                "{turn_no} by {step}"
            );
        }
    }
    Ok(())
}

#[test]
fn mixed_turns_match_plain_lists(rt: HostRuntime) -> Result<(), Fail> {
    for step in 1..=6 {
        matches_plain_lists(&rt, rt.alloc(), step)?;
    }
    Ok(())
}
