//! The keys of the clean pages, oldest first.
ghost use Rattle.std.specs.Prelude.{◌≡◌, ◌<◌, ℕ, true, false, IfOk, slice_get, eqb};
ghost use Rattle.std.specs.List.{IsDistinct};
ghost use Rattle.index_list.specs.Listing.{stands_in};
ghost use Rattle.clean_evict.specs.Cleans.{empty, pushed, without};

use index_list::{Lists, Memory};
use std::alloc::Global;
use std::marker::Model;

/// The number of the one list.
const CLEAN: u32 = 0;

/// The keys of the clean pages, in the order in which they became clean.
#[derive(Drop)]
pub struct CleanList {
    keys: Lists,
}

impl Model for CleanList {
    ghost use Rattle.std.specs.Prelude.{◌≡◌, length};
    ghost use Rattle.index_list.specs.Listing.{nodes_on};
    ghost use Rattle.clean_evict.specs.Cleans.{Cleans};

    ghost Value = { Cleans };

    ghost view = { λ a. record { nodes = a.keys.nodes; keys = nodes_on 0 a.keys } };

    ghost invariant = { λ a. length a.keys.lists ≡ 1 };
}

impl CleanList {
    /// An empty list for keys below `pages`. Takes all the memory that the list will ever use, 12
    /// bytes for each key.
    ///
    /// # Errors
    ///
    /// `Memory` where there is not so much, or where `pages` is the greatest u32.
    pub fn with(alloc: Global, pages: u32) -> Result<CleanList, Memory>
        ensures { IfOk result (λ made. made ≡ empty pages) }
    {
        let keys = Lists::with(alloc, pages, 1)?;
        Ok(CleanList { keys })
    }

    /// Puts a page at the end: it is the one that became clean last.
    #[inline]
    pub fn push(&mut self, node: u32)
        requires node_in { node < self.old.nodes }
        requires absent { stands_in node self.old.keys ≡ false }
        ensures { self.new ≡ pushed node self.old }
    {
        self.keys.push_back(CLEAN, node);
    }

    /// Takes a page off the list. The others keep their order.
    #[inline]
    pub fn remove(&mut self, node: u32)
        requires { stands_in node self.old.keys ≡ true }
        ensures { self.new ≡ without node self.old }
    {
        self.keys.remove(node);
    }

    /// The page that has been clean longest; `None` exactly where the list is empty.
    #[inline]
    pub fn oldest(&self) -> Option<u32>
        ensures first { result ≡ slice_get self.now.keys 0 }
        ensures once { IsDistinct eqb self.now.keys }
        ensures known { (key : ℕ) → stands_in key self.now.keys ≡ true → key < self.now.nodes }
    {
        self.keys.front(CLEAN)
    }
}
