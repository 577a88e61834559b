//! Lists of nodes that have a length, with the sum of the lengths on each list.
ghost use Rattle.std.specs.Prelude.{◌≡◌, ◌↔◌, [], ◌<◌, ◌≤◌, ◌-◌, None, Some, IfOk, IfSome, IsSome, length, slice_get};
ghost use Rattle.index_list.specs.Listing.{nodes_on, list_with};
ghost use Rattle.client_lists.specs.Clients.{IsMeasured, longest, is_filled, total, len_of, unmeasured, pushed_with, taken};

use index_list::{Lists, Memory};
use std::alloc::Global;
use std::marker::Model;

/// Lists of nodes, the length of each node, and beside each list the sum of the lengths on it.
#[derive(Drop)]
pub(crate) struct MeasuredLists {
    lists: Lists,
    lens: Vec<u64>,
    sums: Vec<u64>,
}

impl Model for MeasuredLists {
    ghost use Rattle.client_lists.specs.Clients.{Measured};
    ghost use Rattle.client_lists.specs.Inside.{IsSummed};

    ghost Value = { Measured };

    ghost view = { λ a. record { lists = a.lists; lens = a.lens.items } };

    ghost invariant = { λ a. IsSummed a.lists a.lens.items a.sums.items };
}

impl MeasuredLists {
    /// As many empty lists, over nodes whose numbers are below `nodes`.
    ///
    /// # Errors
    ///
    /// `Memory` where there is not enough, or where nodes and lists together are 2^32 or more.
    pub(crate) fn with(alloc: Global, nodes: u32, lists: u32) -> Result<MeasuredLists, Memory>
        ensures { IfOk result (λ made. made ≡ unmeasured nodes lists) }
    {
        let table = Lists::with(alloc, nodes, lists)?;
        let lens = vec![in alloc; 0; nodes as usize]?;
        let sums = vec![in alloc; 0; lists as usize]?;
        Ok(MeasuredLists {
            lists: table,
            lens,
            sums,
        })
    }

    /// Puts a node of that length at the back of a list.
    #[inline]
    pub(crate) fn push(&mut self, list: u32, node: u32, len: u64)
        requires list_in { list < length self.old.lists.lists }
        requires node_in { node < self.old.lists.nodes }
        requires nowhere { list_with node self.old.lists ≡ None }
        requires len { len ≤ longest }
        ensures pushed { self.new ≡ pushed_with list node len self.old }
        ensures measured { IsMeasured self.old }
    {
        self.lists.push_back(list, node);
        self.lens[node as usize] = len;
        self.sums[list as usize] += len;
    }

    /// Takes a node off its list.
    #[inline]
    pub(crate) fn remove(&mut self, node: u32)
        requires { IsSome (list_with node self.old.lists) }
        ensures taken { self.new ≡ taken node self.old }
        ensures measured { IsMeasured self.old }
    {
        let list = self.lists.list_of(node).unwrap();
        self.lists.remove(node);
        self.sums[list as usize] -= self.lens[node as usize];
    }

    /// The length of a node that is on a list, in bytes.
    #[inline]
    pub(crate) fn len(&self, node: u32) -> u64
        requires { IsSome (list_with node self.now.lists) }
        ensures len { result ≡ len_of node self.now }
        ensures measured { IsMeasured self.now }
    {
        self.lens[node as usize]
    }

    /// The sum of the lengths of the nodes on a list, in bytes.
    #[inline]
    pub(crate) fn sum(&self, list: u32) -> u64
        requires { list < length self.now.lists.lists }
        ensures sum { result ≡ total self.now.lens (nodes_on list self.now.lists) }
        ensures measured { IsMeasured self.now }
    {
        self.sums[list as usize]
    }

    /// Whether a node is on the list.
    #[inline]
    pub(crate) fn is_filled(&self, list: u32) -> bool
        requires { list < length self.now.lists.lists }
        ensures { result ≡ is_filled (nodes_on list self.now.lists) }
    {
        self.lists.front(list).is_some()
    }

    /// The node that came last to the list; `None` exactly where it is empty.
    #[inline]
    pub(crate) fn newest(&self, list: u32) -> Option<u32>
        requires { list < length self.now.lists.lists }
        ensures last { result ≡ slice_get (nodes_on list self.now.lists) (length (nodes_on list self.now.lists) - 1) }
        ensures there { IfSome result (λ node. list_with node self.now.lists ≡ Some list) }
        ensures measured { IsMeasured self.now }
        ensures none { (result ≡ None) ↔ (nodes_on list self.now.lists ≡ []) }
    {
        self.lists.back(list)
    }

    /// What holds of all lists at all times.
    #[inline]
    pub(crate) fn law_measured(&self)
        ensures { IsMeasured self.now }
    {
        let _lists = &self.lists;
    }

    /// The list that a node is on.
    #[cfg(test)]
    pub(crate) fn list_of(&self, node: u32) -> Option<u32>
        requires { node < self.now.lists.nodes }
        ensures { result ≡ list_with node self.now.lists }
    {
        self.lists.list_of(node)
    }
}
