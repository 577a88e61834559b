//! Slots that belong together, and the room for them.
ghost use Rattle.std.specs.Prelude.{◌≡◌, IfOk, length};

use reservation_tree::Memory;
use std::alloc::Global;
use std::marker::Model;

/// An empty list with room for some slots.
#[derive(Drop)]
pub struct SlotShell<D> {
    pub(crate) room: u32,
    pub(crate) none: Vec<D>,
}

impl<D> Model for SlotShell<D> {
    ghost use Rattle.std.specs.Prelude.{◌≡◌, ◌≤◌, ℕ, vec_len, vec_capacity};

    ghost Value = { ℕ };

    ghost view = { λ shell. shell.room };

    ghost invariant = { λ shell. (vec_len shell.none ≡ 0) × (shell.room ≤ vec_capacity shell.none) };
}

impl<D> SlotShell<D> {
    /// An empty list with room for `slots` slots.
    ///
    /// # Errors
    ///
    /// `Memory`: there was no memory for the list.
    pub fn with(alloc: Global, slots: u32) -> Result<SlotShell<D>, Memory>
        ensures { IfOk result (λ shell. shell ≡ slots) }
    {
        let none = Vec::with_capacity(alloc, slots as usize)?;
        Ok(SlotShell { room: slots, none })
    }
}

/// Slots that went out together, in their order.
#[derive(Drop)]
pub struct SlotRow<D> {
    pub(crate) slots: Vec<D>,
}

impl<D> Model for SlotRow<D> {
    ghost use Rattle.std.specs.Prelude.{◌≡◌, ◌<◌, ◌^◌, List, length, vec_len};

    ghost Value = { List D };

    ghost view = { λ row. row.slots.items };

    ghost invariant = { λ row. (vec_len row.slots < 2 ^ 32) × (length row.slots.items ≡ vec_len row.slots) };
}

impl<D> SlotRow<D> {
    /// How many slots there are.
    #[inline]
    pub fn len(&self) -> usize
        ensures { result ≡ length self.now }
    {
        self.slots.len()
    }
}
