//! What a store in memory keeps.
ghost use Rattle.block_arena.specs.Blocks.{IsBlockLen};
ghost use Rattle.store_api.specs.MemAccounts.{clients_of};
ghost use Rattle.store_api.specs.MemPieces.{IsKept};

use crate::mem_store::accounts::Accounts;
use crate::mem_store::piece::Piece;
use slab::Slab;

/// A store wholly in memory. Buffers are given and taken as they are, and no byte is copied.
///
/// It can't be let go: [`MemStore::close`] ends it. It tells no trail.
///
/// Pages and loans are numbered together, and numbers come again. `create` and `alloc` answer `Memory` where there was none
/// for the bytes or for the table of the pieces, and also where the next number would pass the greatest `u32`.
pub struct MemStore {
    pub(crate) block_len: u32,
    pub(crate) accounts: Accounts,
    pub(crate) pieces: Slab<Piece>,
    ghost block: { IsBlockLen block_len },
    ghost kept: { IsKept block_len (clients_of accounts.clients) pieces },
}
