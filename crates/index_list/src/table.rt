//! The lists, over their table.
ghost use Rattle.std.specs.Prelude.{◌≡◌, ◌<◌, ◌-◌, None, IfOk, IsSome, length, slice_get};
ghost use Rattle.index_list.specs.Listing.{IsProper, empty, nodes_on, list_with, next_node, pushed, without};
ghost use Rattle.index_list.specs.Threads.{answer};

use crate::links::{Link, NOWHERE, join, note};
use crate::shortage::Memory;
use std::alloc::Global;
use std::marker::Model;

/// Lists of node numbers. No node is on two of them, or twice on one.
#[derive(Drop)]
pub struct Lists {
    links: Vec<Link>,
    nodes: u32,
    lists: u32,
}

impl Model for Lists {
    ghost use Rattle.std.specs.Prelude.{◌≡◌, ◌+◌, length};
    ghost use Rattle.index_list.specs.Listing.{Listing};
    ghost use Rattle.index_list.specs.Threads.{next_of, threads_of, lists_in, Tied};

    ghost Value = { Listing };

    ghost view = { λ a. record { nodes = a.nodes; lists = lists_in (next_of a.links.items) a.nodes a.lists } };

    ghost invariant = { λ a. (length a.links.items ≡ a.nodes + a.lists) × Tied (threads_of a.links.items) a.nodes a.lists (lists_in (next_of a.links.items) a.nodes a.lists) };
}

impl Lists {
    /// As many empty lists, over nodes whose numbers are below `nodes`. Takes all the memory that
    /// the lists will ever use, 12 bytes for each node and for each list.
    ///
    /// # Errors
    ///
    /// `Memory` where there is not so much, or where nodes and lists together are 2^32 or more.
    pub fn with(alloc: Global, nodes: u32, lists: u32) -> Result<Lists, Memory>
        ensures { IfOk result (λ made. made ≡ empty nodes lists) }
    {
        let entries = nodes.checked_add(lists).ok_or(Memory)?;
        let free = Link {
            next: 0,
            prev: 0,
            list: NOWHERE,
        };
        let mut links = vec![in alloc; free; entries as usize]?;
        for end in nodes..entries {
            join(&mut links, end, end);
        }
        Ok(Lists {
            links,
            nodes,
            lists,
        })
    }

    /// Puts a node at the back of a list.
    #[inline]
    pub fn push_back(&mut self, list: u32, node: u32)
        requires list_in { list < length self.old.lists }
        requires node_in { node < self.old.nodes }
        requires nowhere { list_with node self.old ≡ None }
        ensures { self.new ≡ pushed list node self.old }
    {
        let end = self.nodes + list;
        let links = self.links.as_mut_slice();
        let last = links[end as usize].prev;
        join(links, last, node);
        join(links, node, end);
        note(links, node, list);
    }

    /// Takes a node off its list. The others keep their order.
    #[inline]
    pub fn remove(&mut self, node: u32)
        requires { IsSome (list_with node self.old) }
        ensures { self.new ≡ without node self.old }
    {
        let links = self.links.as_mut_slice();
        let prev = links[node as usize].prev;
        let next = links[node as usize].next;
        join(links, prev, next);
        note(links, node, NOWHERE);
    }

    /// The first node of a list; `None` exactly where the list is empty.
    #[inline]
    pub fn front(&self, list: u32) -> Option<u32>
        requires { list < length self.now.lists }
        ensures first { result ≡ slice_get (nodes_on list self.now) 0 }
        ensures proper { IsProper self.now }
    {
        node_or_end(self.links[(self.nodes + list) as usize].next, self.nodes)
    }

    /// The last node of a list; `None` exactly where the list is empty.
    #[inline]
    pub fn back(&self, list: u32) -> Option<u32>
        requires { list < length self.now.lists }
        ensures { result ≡ slice_get (nodes_on list self.now) (length (nodes_on list self.now) - 1) }
    {
        node_or_end(self.links[(self.nodes + list) as usize].prev, self.nodes)
    }

    /// The node that follows this one on its list; `None` exactly where it is the last one, or is
    /// on no list.
    #[inline]
    pub fn next(&self, node: u32) -> Option<u32>
        requires { node < self.now.nodes }
        ensures { result ≡ next_node node self.now }
    {
        let link = self.links[node as usize];
        if link.list == NOWHERE {
            return None;
        }
        node_or_end(link.next, self.nodes)
    }

    /// The list that a node is on; `None` exactly where it is on none.
    #[inline]
    pub fn list_of(&self, node: u32) -> Option<u32>
        requires { node < self.now.nodes }
        ensures list { result ≡ list_with node self.now }
        ensures proper { IsProper self.now }
    {
        let list = self.links[node as usize].list;
        if list == NOWHERE { None } else { Some(list) }
    }
}

/// An entry as an answer: the node, or `None` where the entry is a list's end.
#[inline]
fn node_or_end(entry: u32, nodes: u32) -> Option<u32>
    ensures { result ≡ answer nodes entry }
{
    if entry < nodes { Some(entry) } else { None }
}
