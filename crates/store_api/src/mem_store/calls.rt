//! The calls of a store in memory.

use crate::mem_store::accounts::MAX_CLIENTS;
use crate::mem_store::held::MemStore;
use crate::mem_store::piece::Stand;
use crate::mem_store::pieces::{
    end_loan, end_page, hand_over, pin_at, pins_at, repin_at, rest_at, stand,
};
use crate::store::Store;
use crate::tokens::{Client, Loan, Page};
use block_arena::Buf;
use reservation_tree::PoolErr;
use std::alloc::Global;

impl Store for MemStore {
    ghost use Rattle.store_api.specs.MemStore.{held_in, no_signs};
    ghost use Rattle.store_api.specs.MemAccounts.{clients_of};
    ghost use Rattle.store_api.specs.MemLaws.{all_unused, all_room};

    ghost holds = { held_in };

    ghost signs = { λ s. no_signs };

    ghost tells_left = { λ st. tt };

    ghost idle_unused = { λ st t lives idle. all_unused st.block_len (clients_of st.accounts.clients) st.pieces st.kept t idle.pages idle.loans };

    ghost idle_room = { λ st none. all_room st.accounts none };

    fn block_len(&self) -> u32 {
        self.block_len
    }

    fn room(&self) -> u64 {
        self.accounts.room
    }

    fn unused(&self, c: &Client) -> u64 {
        self.accounts.unused(c.tracker())
    }

    fn add_client(&mut self, limit: u64) -> Result<Client, PoolErr> {
        match self.accounts.add(limit) {
            Some(tracker) => Ok(Client::of(0, tracker)),
            None => Err(PoolErr::TooManyTrackers { count: MAX_CLIENTS }),
        }
    }

    fn end_client(&mut self, c: Client) {
        self.accounts.end(c.into_tracker());
    }

    fn reserve(&mut self, c: &Client, bytes: u64) -> Result<(), PoolErr> {
        self.accounts.reserve(c.tracker(), bytes)
    }

    fn reserve_to_fit(&mut self, c: &Client, bytes: u64) -> Result<(), PoolErr> {
        let lacking = bytes.saturating_sub(self.accounts.unused(c.tracker()));
        self.accounts.reserve(c.tracker(), lacking)
    }

    fn give_back(&mut self, c: &Client, bytes: u64) -> Result<(), PoolErr> {
        self.accounts.fall(c.tracker(), bytes);
        Ok(())
    }

    fn move_reservation(&mut self, from: &Client, to: &Client, bytes: u64) -> Result<(), PoolErr> {
        self.accounts.shift(from.tracker(), to.tracker(), bytes)
    }

    fn create(&mut self, alloc: Global, c: &Client, blocks: u32) -> Result<(Page, Buf), PoolErr> {
        let client = c.tracker();
        let (key, buf) = self.add_piece(alloc, client, blocks, Stand::Pinned(1))?;
        Ok((Page::of(key as u64, 0, client), buf))
    }

    fn pin(&mut self, p: &Page) -> Result<Buf, PoolErr> {
        let key = p.name() as usize;
        let len = self.len_at(key);
        self.accounts.charge(p.client(), len);
        Ok(pin_at(&mut self.pieces, key))
    }

    fn pin_again(&mut self, p: &Page) -> Result<(), PoolErr> {
        let key = p.name() as usize;
        let count = pins_at(&self.pieces, key);
        let len = self.len_at(key);
        self.accounts.charge(p.client(), len);
        repin_at(&mut self.pieces, key, count + 1);
        Ok(())
    }

    fn unpin_once(&mut self, p: &Page) {
        let key = p.name() as usize;
        let count = pins_at(&self.pieces, key);
        let len = self.len_at(key);
        self.accounts.release(p.client(), len);
        repin_at(&mut self.pieces, key, count - 1);
    }

    fn unpin(&mut self, p: &Page, buf: Buf) -> Result<(), (Buf, PoolErr)> {
        let key = p.name() as usize;
        let len = self.len_at(key);
        self.accounts.release(p.client(), len);
        rest_at(&mut self.pieces, key, buf);
        Ok(())
    }

    fn extract(&mut self, p: Page, buf: Buf) -> Loan {
        let client = p.client();
        let key = p.into_name() as usize;
        stand(&mut self.pieces, key, Stand::Lent);
        Loan::of(key as u32, client, buf)
    }

    fn destroy(&mut self, p: Page, _buf: Option<Buf>) {
        let client = p.client();
        let key = p.into_name() as usize;
        let charge = self.charge_at(key);
        self.accounts.release(client, charge);
        end_page(&mut self.pieces, key);
    }

    fn alloc(&mut self, alloc: Global, c: &Client, blocks: u32) -> Result<Loan, PoolErr> {
        let client = c.tracker();
        let (key, buf) = self.add_piece(alloc, client, blocks, Stand::Lent)?;
        Ok(Loan::of(key as u32, client, buf))
    }

    fn free(&mut self, loan: Loan) {
        let key = loan.number() as usize;
        let len = self.len_at(key);
        self.accounts.release(loan.client(), len);
        end_loan(&mut self.pieces, key);
        let _buf = loan.into_buf();
    }

    fn move_buffer(&mut self, loan: Loan, to: &Client) -> Result<Loan, (Loan, PoolErr)> {
        let (number, from) = (loan.number(), loan.client());
        let target = to.tracker();
        if from == target {
            return Ok(loan);
        }
        let key = number as usize;
        let len = self.len_at(key);
        self.accounts.pass(from, target, len);
        hand_over(&mut self.pieces, key, target);
        Ok(Loan::of(number, target, loan.into_buf()))
    }
}
