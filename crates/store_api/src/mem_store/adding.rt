//! New pieces of a store in memory, and how long pieces are.
ghost use Rattle.std.specs.Prelude.{◌≡◌, ℕ, ◌*◌, ◌≤◌, IsSome, IfOk, OnErr};
ghost use Rattle.slab.specs.Slab.{get};
ghost use Rattle.store_api.specs.MemAccounts.{clients_of, account_at};
ghost use Rattle.store_api.specs.MemPieces.{charge_standing, pages_of, piece_at, page_at};
ghost use Rattle.store_api.specs.MemStore.{AddsPiece};

use crate::mem_store::held::MemStore;
use crate::mem_store::piece::{Piece, Stand};
use crate::mem_store::pieces::{come, pins_at, zeroed};
use block_arena::Buf;
use reservation_tree::{Memory, TrackerId};
use std::alloc::Global;

impl MemStore {
    // The bytes of so many blocks.
    pub(crate) fn len_of(&self, blocks: u32) -> u64
        ensures { result ≡ blocks * self.now.block_len }
    {
        u64::from(blocks) * u64::from(self.block_len)
    }

    // The bytes of a piece.
    pub(crate) fn len_at(&self, key: usize) -> u64
        requires { IsSome (get self.now.pieces key) }
        ensures { result ≡ (piece_at key self.now.pieces).blocks * self.now.block_len }
    {
        self.len_of(self.pieces[key].blocks)
    }

    // The bytes that are charged for a page: its length for each of its pins.
    pub(crate) fn charge_at(&self, key: usize) -> u64
        requires { IsSome (pages_of self.now.pieces key) }
        ensures { result ≡ (page_at key self.now.pieces).pins * ((piece_at key self.now.pieces).blocks * self.now.block_len) }
    {
        pins_at(&self.pieces, key) * self.len_at(key)
    }

    // A new piece of zeros, charged to the client. Its number fits that of a loan.
    pub(crate) fn add_piece(
        &mut self,
        alloc: Global,
        client: TrackerId,
        blocks: u32,
        stand: Stand,
    ) -> Result<(usize, Buf), Memory>
        requires client { IsSome (clients_of self.old.accounts.clients client) }
        requires blocks { 1 ≤ blocks }
        requires unused { blocks * self.old.block_len ≤ (account_at client self.old.accounts.clients).unused }
        requires charged { (len : ℕ) → charge_standing len stand ≡ len }
        ensures ok { IfOk result (λ made. AddsPiece (record { client = client; blocks = blocks; stand = stand }) made.0 made.1 self.old self.new) }
        ensures same_accounts { OnErr result (self.new.accounts ≡ self.old.accounts) }
        ensures same_pieces { OnErr result (self.new.pieces.slots ≡ self.old.pieces.slots) }
        ensures block_len { self.new.block_len ≡ self.old.block_len }
    {
        let buf = zeroed(alloc, blocks, self.block_len)?;
        if self.pieces.reserve(1).is_err() {
            return Err(Memory);
        }
        if self.pieces.vacant_key() > u32::MAX as usize {
            return Err(Memory);
        }
        let len = self.len_of(blocks);
        self.accounts.charge(client, len);
        let key = come(
            &mut self.pieces,
            Piece {
                client,
                blocks,
                stand,
            },
        );
        Ok((key, buf))
    }
}
