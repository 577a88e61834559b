//! Pages that wait.
ghost use Rattle.std.specs.Prelude.{◌≡◌, [], OnOk};
ghost use Rattle.std.specs.Ordering.{nat_cmp};
ghost use Rattle.std.specs.BTreeMap.{insert_entry, is_at};
ghost use Rattle.std.specs.Map.{remove_entry};
ghost use Rattle.trace_follow.specs.Queues.{first_in, last_in};

use std::alloc::{AllocError, Global};
use std::collections::BTreeMap;
use std::marker::Model;

/// Names of pages, each under its stamp, the number of the entry that left it there. Contracts see the pairs of stamps
/// and names, by ascending stamps.
#[derive(Drop)]
pub(crate) struct Queue {
    names: BTreeMap<u64, u64>,
}

impl Model for Queue {
    ghost use Rattle.std.specs.Prelude.{ℕ, List};

    ghost Value = { List (ℕ × ℕ) };

    ghost view = { λ queue. queue.names.entries };
}

impl Queue {
    pub(crate) fn new(alloc: Global) -> Queue
        ensures { result ≡ [] }
    {
        Queue {
            names: BTreeMap::new(alloc),
        }
    }

    pub(crate) fn put(&mut self, stamp: u64, page: u64) -> Result<(), AllocError>
        ensures ok { OnOk result (self.new ≡ insert_entry nat_cmp self.old stamp page) }
    {
        self.names.insert(stamp, page)?;
        Ok(())
    }

    /// Takes out what has this stamp, if anything has it.
    pub(crate) fn take(&mut self, stamp: u64)
        ensures { self.new ≡ remove_entry (is_at (nat_cmp stamp)) self.old }
    {
        self.names.remove(&stamp);
    }

    pub(crate) fn oldest(&self) -> Option<u64>
        ensures { result ≡ first_in self.now }
    {
        self.names.first_key_value().map(|entry| *entry.1)
    }

    pub(crate) fn newest(&self) -> Option<u64>
        ensures { result ≡ last_in self.now }
    {
        self.names.last_key_value().map(|entry| *entry.1)
    }
}
