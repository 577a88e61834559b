//! The lists of the clients, and the clients with a dirty page.
ghost use Rattle.std.specs.Prelude.{◌≡◌, ◌≢◌, ◌↔◌, ◌<◌, ◌≤◌, ℕ, [], None, Some, IfOk, IfSome, length};
ghost use Rattle.index_list.specs.Listing.{list_with};
ghost use Rattle.client_lists.specs.declared.which.Which.{Which as Kind};
ghost use Rattle.client_lists.specs.declared.which.Which.TheVariants.{Dirty};
ghost use Rattle.client_lists.specs.Clients.{IsOpen, IsClosed, IsOn, IsWhole, longest, fresh, opened, closed, nodes_of, sum, newest, place, with_node, without_node, shifted};

use crate::busy::{BUSY, settle};
use crate::measured::MeasuredLists;
use crate::which::{Which, place};
use index_list::{Lists, Memory};
use std::alloc::Global;
use std::marker::Model;

/// Three lists of nodes for each client, and the sum of the lengths on each of them.
#[derive(Drop)]
pub struct ClientLists {
    is_open: Vec<bool>,
    pages: MeasuredLists,
    busy: Lists,
}

impl Model for ClientLists {
    ghost use Rattle.client_lists.specs.Clients.{Clients};
    ghost use Rattle.client_lists.specs.Inside.{IsKept};

    ghost Value = { Clients };

    ghost view = { λ a. record { is_open = a.is_open.items; pages = a.pages } };

    ghost invariant = { λ a. IsKept a.is_open.items a.pages a.busy };
}

impl ClientLists {
    /// Empty lists for clients whose numbers are below `clients`, none of them open, over nodes
    /// whose numbers are below `pages`. Takes all the memory that the lists will ever use.
    ///
    /// # Errors
    ///
    /// `Memory` where there is not so much, or where three lists a client and the nodes together
    /// are 2^32 or more.
    pub fn with(alloc: Global, clients: u32, pages: u32) -> Result<ClientLists, Memory>
        ensures { IfOk result (λ made. made ≡ fresh clients pages) }
    {
        let lists = clients.checked_mul(3).ok_or(Memory)?;
        let is_open = vec![in alloc; false; clients as usize]?;
        let pages = MeasuredLists::with(alloc, pages, lists)?;
        let busy = Lists::with(alloc, clients, 1)?;
        Ok(ClientLists {
            is_open,
            pages,
            busy,
        })
    }

    /// Opens a client.
    pub fn open(&mut self, client: u32)
        requires client_in { client < length self.old.is_open }
        requires closed { IsClosed client self.old }
        ensures opened { self.new ≡ opened client self.old }
        ensures empty { (which : Kind) → nodes_of client which self.new ≡ [] }
    {
        self.is_open[client as usize] = true;
    }

    /// Closes a client.
    pub fn close(&mut self, client: u32)
        requires open { IsOpen client self.old }
        requires empty { (which : Kind) → nodes_of client which self.old ≡ [] }
        ensures { self.new ≡ closed client self.old }
    {
        self.is_open[client as usize] = false;
    }

    /// Puts a node of that length, in bytes, at the back of a list of the client.
    #[inline]
    pub fn push(&mut self, client: u32, to: Which, node: u32, len: u64)
        requires open { IsOpen client self.old }
        requires node_in { node < self.old.pages.lists.nodes }
        requires nowhere { list_with node self.old.pages.lists ≡ None }
        requires len { len ≤ longest }
        ensures pushed { self.new ≡ with_node client to node len self.old }
        ensures whole { IsWhole self.old }
    {
        self.pages.push(place(client, to), node, len);
        let has_dirty = self.pages.is_filled(place(client, Which::Dirty));
        settle(&mut self.busy, client, has_dirty);
    }

    /// Takes a node off its list, and puts it at the back of another list of its client, or of
    /// the same one. Its length stays.
    #[inline]
    pub fn shift(&mut self, client: u32, node: u32, to: Which)
        requires { IsOn client node self.old }
        ensures shifted { self.new ≡ shifted client to node self.old }
        ensures whole { IsWhole self.old }
    {
        let len = self.pages.len(node);
        self.take_out(client, node);
        self.push(client, to, node, len);
    }

    /// Takes a node off its list.
    #[inline]
    pub fn take_out(&mut self, client: u32, node: u32)
        requires { IsOn client node self.old }
        ensures taken { self.new ≡ without_node node self.old }
        ensures whole { IsWhole self.old }
    {
        self.pages.remove(node);
        let has_dirty = self.pages.is_filled(place(client, Which::Dirty));
        settle(&mut self.busy, client, has_dirty);
    }

    /// The sum of the lengths of the nodes on that list, in bytes.
    #[inline]
    pub fn sum(&self, client: u32, which: Which) -> u64
        requires { client < length self.now.is_open }
        ensures sum { result ≡ sum client which self.now }
        ensures whole { IsWhole self.now }
    {
        self.pages.sum(place(client, which))
    }

    /// The node that came last to the client's dirty list; `None` exactly where that is empty.
    #[inline]
    pub fn newest_dirty(&self, client: u32) -> Option<u32>
        requires { client < length self.now.is_open }
        ensures last { result ≡ newest client self.now }
        ensures there { IfSome result (λ node. list_with node self.now.pages.lists ≡ Some (place client Dirty)) }
        ensures none { (result ≡ None) ↔ (nodes_of client Dirty self.now ≡ []) }
        ensures whole { IsWhole self.now }
    {
        self.pages.newest(place(client, Which::Dirty))
    }

    /// A client with a dirty page; `None` exactly where there is none. Which one of several is
    /// free.
    #[inline]
    pub fn some_dirty(&self) -> Option<u32>
        ensures dirty { IfSome result (λ client. nodes_of client Dirty self.now ≢ []) }
        ensures open { IfSome result (λ client. IsOpen client self.now) }
        ensures none { (result ≡ None) ↔ ((client : ℕ) → nodes_of client Dirty self.now ≡ []) }
    {
        self.busy.front(BUSY)
    }

    /// What holds of all lists at all times: no node is on two of them, or twice on one, each has a
    /// length, and a client that isn't open has no node.
    #[inline]
    pub fn law_whole(&self)
        ensures { IsWhole self.now }
    {
        self.pages.law_measured();
    }

    /// The number of the list that a node is on.
    #[cfg(test)]
    pub(crate) fn list_of(&self, node: u32) -> Option<u32>
        requires { node < self.now.pages.lists.nodes }
        ensures { result ≡ list_with node self.now.pages.lists }
    {
        self.pages.list_of(node)
    }
}
