//! The room of a buffer, before it has blocks and after.
ghost use Rattle.std.specs.Prelude.{◌≡◌, IfOk};

use crate::layout::Block;
use crate::shortage::Memory;
use std::alloc::Global;
use std::marker::Model;

/// An empty list with room for some blocks.
#[derive(Drop)]
pub struct Shell {
    pub(crate) room: u32,
    pub(crate) none: Vec<Block>,
}

impl Model for Shell {
    ghost use Rattle.std.specs.Prelude.{◌≡◌, ◌≤◌, ℕ, vec_len, vec_capacity};

    ghost Value = { ℕ };

    ghost view = { λ shell. shell.room };

    ghost invariant = { λ shell. (vec_len shell.none ≡ 0) × (shell.room ≤ vec_capacity shell.none) };
}

impl Shell {
    /// An empty list with room for `blocks` blocks.
    ///
    /// # Errors
    ///
    /// `Memory`: there was no memory for the list.
    pub fn with(alloc: Global, blocks: u32) -> Result<Shell, Memory>
        ensures { IfOk result (λ shell. shell ≡ blocks) }
    {
        let none = Vec::with_capacity(alloc, blocks as usize)?;
        Ok(Shell { room: blocks, none })
    }

    /// How many blocks it has room for.
    #[inline]
    pub fn room(&self) -> u32
        ensures { result ≡ self.now }
    {
        self.room
    }
}
