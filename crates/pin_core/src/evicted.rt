//! The pages that a call evicts are told to its caller.
ghost use Rattle.std.specs.Prelude.{◌≡◌, [], IfOk};

use reservation_tree::Memory;
use std::alloc::Global;
use std::marker::Model;

// How many pages one call evicts at most: it needs up to 256 blocks, and each page gives one or more.
const MOST_EVICTED: usize = 256;

/// The names of the pages that a call evicted, the one first that had been clean longest. Each call that evicts
/// pages, and is given this list, puts their names in place of those that it has.
#[derive(Drop)]
pub struct EvictedPages {
    pub(crate) names: Vec<u64>,
}

impl Model for EvictedPages {
    ghost use Rattle.std.specs.Prelude.{◌≤◌, ℕ, List, vec_capacity};

    ghost Value = { List ℕ };

    ghost view = { λ gone. gone.names.items };

    ghost invariant = { λ gone. 256 ≤ vec_capacity gone.names };
}

impl EvictedPages {
    /// None. Takes all the memory that it will ever use.
    pub fn open(alloc: Global) -> Result<EvictedPages, Memory>
        ensures { IfOk result (λ gone. gone ≡ []) }
    {
        let Ok(names) = Vec::with_capacity(alloc, MOST_EVICTED) else {
            return Err(Memory);
        };
        Ok(EvictedPages { names })
    }

    /// Their names, in the order in which they went.
    pub fn names(&self) -> &[u64]
        ensures { result.now ≡ self.now }
    {
        self.names.as_slice()
    }
}
