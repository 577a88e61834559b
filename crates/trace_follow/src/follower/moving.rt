//! A page goes to another place.
ghost use Rattle.std.specs.Prelude.{◌≡◌, ◌+◌, ◌*◌, OnOk, IfSome};
ghost use Rattle.trace_follow.specs.Moving.{charges_of, holds_of, blocks_of, pins_in, Reloads, Moves};

use super::Follower;
use crate::rows::{Load, PageRow, Place};
use std::alloc::AllocError;

impl Place {
    // How often a page here is charged to its client.
    pub(super) fn charges(self) -> u64
        ensures { result ≡ charges_of self }
    {
        match self {
            Place::Pinned(count) => count,
            Place::Loading => 1,
            Place::Dirty | Place::Flying(_) | Place::Clean | Place::Evicted => 0,
        }
    }

    // How often its client holds it.
    pub(super) fn holds(self) -> u64
        ensures { result ≡ holds_of self }
    {
        match self {
            Place::Pinned(count) => count,
            Place::Dirty | Place::Flying(_) | Place::Loading => 1,
            Place::Clean | Place::Evicted => 0,
        }
    }

    // The pins of a page here.
    pub(super) fn pins(self) -> u64
        ensures { result ≡ pins_in self }
    {
        match self {
            Place::Pinned(count) => count,
            _ => 0,
        }
    }

    // 1 where it has blocks, and else 0.
    pub(super) fn blocks(self) -> u64
        ensures { result ≡ blocks_of self }
    {
        match self {
            Place::Evicted => 0,
            _ => 1,
        }
    }
}

// The sum with so many times the length more, and so many less, where u64 holds it.
fn exchanged(sum: u64, len: u64, less: u64, more: u64) -> Option<u64>
    ensures { IfSome result (λ r. r + less * len ≡ sum + more * len) }
{
    let added = sum.checked_add(more.checked_mul(len)?)?;
    added.checked_sub(less.checked_mul(len)?)
}

impl Load {
    // After a page of this length went from one place to another.
    fn moved(self, len: u64, old: Place, new: Place) -> Option<Load>
        ensures { IfSome result (Reloads len old new self) }
    {
        Some(Load {
            charge: exchanged(self.charge, len, old.charges(), new.charges())?,
            held: exchanged(self.held, len, old.holds(), new.holds())?,
            count: self.count,
        })
    }
}

impl Follower {
    // The row of a live page changes.
    pub(super) fn put_page(&mut self, p: u64, was: PageRow, row: PageRow) -> Result<(), AllocError>
        ensures { OnOk result (Moves self.old self.new p was row) }
    {
        let len = self.len_of(was.blocks);
        let load = self
            .load(was.client)
            .moved(len, was.place, row.place)
            .ok_or(AllocError)?;
        let free = exchanged(self.free, len, row.place.blocks(), was.place.blocks()).ok_or(
            AllocError,
        )?;
        self.free = free;
        self.loads.put(u64::from(was.client), load)?;
        self.pages.put(p, row)
    }
}
