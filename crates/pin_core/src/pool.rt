//! The value of a pool.
ghost use Rattle.std.specs.Prelude.{◌≡◌};
ghost use Rattle.pin_core.specs.calls.Needs.{id_in};

use crate::parts::Parts;
use page_table::PageId;
use std::marker::Model;
use store_api::Page;

/// The value of a pool: its parts.
#[derive(Drop)]
pub struct PoolState<D> {
    pub(crate) parts: Parts<D>,
}

impl<D> Model for PoolState<D> {
    ghost use Rattle.pin_core.specs.declared.parts.Parts.{Parts as PoolParts};
    ghost use Rattle.std.specs.Coded.{codes};
    ghost use Rattle.reservation_tree.specs.Tree.{state_code};
    ghost use Rattle.page_table.specs.Pages.{pages_code};
    ghost use Rattle.buffer_transfer.specs.Buffers.{book_code};
    ghost use Rattle.pin_core.specs.Codes.{seats_code};

    ghost Value = { PoolParts D };

    ghost coded = { Prim.hlevel (codes, state_code, pages_code, book_code, seats_code, D.code) };

    ghost use Rattle.pin_core.specs.Invariant.{IsKept};

    ghost view = { λ s. s.parts };

    ghost invariant = { λ s. IsKept s.parts };
}

impl<D> PoolState<D> {
    ghost use Rattle.pin_core.specs.Invariant.{IsKept};
    ghost use Rattle.pin_core.specs.Lawful.{Lawful};

    /// All that the pool has, to be read: a caller that holds no history finds by it whether a call may be
    /// made.
    pub fn parts(&self) -> &Parts<D>
        ensures parts { result.now ≡ self.now }
        ensures kept { IsKept result.now }
        ensures laws { Lawful result.now }
    {
        self.parts.laws();
        &self.parts
    }
}

// The page by its name and key.
#[inline]
pub(crate) fn id_of(p: &Page) -> PageId
    ensures { result ≡ id_in p.now }
{
    PageId {
        name: p.name(),
        key: p.key(),
    }
}
