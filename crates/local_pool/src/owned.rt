//! One owner's pool, while no call is under way.
use crate::sole::Shelf;
use outside::Slot;
use session_calls::{Hand, Opened};
use std::marker::{Brand, Model, PhantomData};

/// A pool's value, the trail for which it stands, and the number of the owner's session. `T` names what the slots
/// counted when the pool opened.
#[derive(Drop)]
pub struct Alone<D: Slot, T: Opened = Brand> {
    pub(crate) hand: Hand<D>,
    pub(crate) shelf: Shelf<D>,
    pub(crate) first: PhantomData<T>,
}

impl<D: Slot, T: Opened> Model for Alone<D, T> {
    ghost use Rattle.std.specs.Coded.{codes};
    ghost use Rattle.reservation_tree.specs.Tree.{state_code};
    ghost use Rattle.page_table.specs.Pages.{pages_code};
    ghost use Rattle.buffer_transfer.specs.Buffers.{book_code};
    ghost use Rattle.pin_core.specs.Codes.{seats_code};
    ghost use Rattle.session_calls.specs.declared.hand.Hand.{Hand};
    ghost use Rattle.local_pool.specs.Counting.{named_at};
    ghost use Rattle.local_pool.specs.Standing.{Stands};
    ghost use Rattle.local_pool.specs.Shelving.{FitsShelf};

    ghost Value = { Hand D };

    ghost coded = { Prim.hlevel (codes, state_code, pages_code, book_code, seats_code, D.code) };

    ghost view = { λ s. s.hand };

    ghost invariant = { λ s. Stands D.Slot (named_at T.named T.opening T.first) s.hand × FitsShelf D.Slot s.shelf s.hand };
}
