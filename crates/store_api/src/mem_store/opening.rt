//! How a store in memory begins and ends.
ghost use Rattle.std.specs.Prelude.{◌≡◌, ◌<◌, ◌≢◌, IfOk, IfErr, Err};
ghost use Rattle.block_arena.specs.Blocks.{IsBlockLen};
ghost use Rattle.reservation_tree.specs.declared.errors.PoolErr.TheVariants as refusal;
ghost use Rattle.store_api.specs.MemStore.{held_in, IsOpened};

use crate::mem_store::accounts::{Accounts, QUERY};
use crate::mem_store::held::MemStore;
use reservation_tree::{PoolErr, TrackerId};
use slab::Slab;
use std::alloc::Global;

impl MemStore {
    /// A store of blocks of `block_len` bytes, whose query may reserve up to `limit` bytes and has `least` of
    /// them. A block length is a power of two from 64 to 65536.
    ///
    /// # Errors
    ///
    /// `NoReservation`: `least` passes the limit. `Memory`: there was no memory for the clients.
    pub fn open(alloc: Global, block_len: u32, limit: u64, least: u64) -> Result<MemStore, PoolErr>
        requires { IsBlockLen block_len }
        ensures ok { IfOk result (λ store. IsOpened block_len limit least (held_in store)) }
        ensures refused { limit < least → result ≡ Err (refusal.NoReservation 1 least limit) }
        ensures cause { IfErr result (λ e. e ≢ refusal.Memory → limit < least) }
    {
        if least > limit {
            return Err(PoolErr::NoReservation {
                tracker: TrackerId::of(QUERY),
                wanted: least,
                room: limit,
            });
        }
        let accounts = Accounts::open(alloc, limit, least)?;
        Ok(MemStore {
            block_len,
            accounts,
            pieces: Slab::new(alloc),
        })
    }

    /// Ends a store that has no client.
    pub fn close(self)
        requires { (held_in self).live_clients ≡ 0 }
    {
        let MemStore {
            block_len: _,
            accounts: _,
            pieces: _,
        } = self;
    }
}
