//! Loans come to an area, and go back to their store.
ghost use Rattle.std.specs.Prelude.{◌≡◌, ◌+◌, ◌*◌, ◌^◌, ◌<◌, ◌≤◌, ℕ, [], length, IfErr, OnOk, OnErr};
ghost use Rattle.block_arena.specs.Blocks.{IsBlockLen};
ghost use Rattle.store_api.specs.Alike.{Alike};
ghost use Rattle.store_api.specs.Conditions.{IsBlockCount, IsLiveClient};
ghost use Rattle.store_api.specs.Holdings.{length_of, unused_of};
ghost use Rattle.store_api.specs.Signs.{Grows};
ghost use Rattle.bucket_table.specs.Filling.{Doubles, Fills, Shrinks, each_of};
ghost use Rattle.bucket_table.specs.Entering.{EnteredLoans};
ghost use Rattle.bucket_table.specs.Lending.{AreHeld, Lends, WasShort, bytes_of};

use crate::area::Area;
use crate::stride::Stride;
use reservation_tree::PoolErr;
use std::alloc::Global;
use store_api::{Client, Store};

impl Area {
    // No loans yet. Each will have so many blocks of this length.
    pub(crate) fn empty(alloc: Global, blocks: u32, block_len: u32) -> Area
        requires blocks { IsBlockCount blocks }
        requires block_len { IsBlockLen block_len }
        ensures { result ≡ record { blocks = blocks; block_len = block_len; loans = []; bytes = [] } }
    {
        Area {
            blocks,
            block: Stride::of(block_len as usize),
            each: Stride::of(blocks as usize * block_len as usize),
            parts: Vec::new(alloc),
        }
    }

    // One loan more, of zeros, behind the others.
    pub(crate) fn add<St: Store>(
        &mut self,
        alloc: Global,
        store: &mut St,
        c: &Client,
    ) -> Result<(), PoolErr>
        requires client { IsLiveClient c.now (St.holds store.old) }
        requires blocks { IsBlockCount self.old.blocks }
        requires block_len { self.old.block_len ≡ (St.holds store.old).block_len }
        requires unused { length_of self.old.blocks (St.holds store.old) ≤ unused_of c.now.tracker (St.holds store.old) }
        requires short { length self.old.bytes + each_of self.old < 2 ^ 32 }
        ensures ok { OnOk result (Fills c.now.tracker 1 self.old self.new (St.holds store.old) (St.holds store.new)) }
        ensures err { OnErr result (self.new ≡ self.old) }
        ensures held { OnErr result (St.holds store.new ≡ St.holds store.old) }
        ensures cause { IfErr result (WasShort c.now.tracker self.old.blocks (St.signs store.old) (St.signs store.new)) }
        ensures grows { Grows (St.signs store.old) (St.signs store.new) }
        ensures entries { EnteredLoans (St.signs store.old).trail (St.signs store.new).trail }
    {
        if self.parts.reserve(1).is_err() {
            return Err(PoolErr::Memory);
        }
        let loan = store.alloc(alloc, c, self.blocks)?;
        self.parts.push_reserved(loan);
        Ok(())
    }

    // So many loans more. After an error some of them may have come.
    pub(crate) fn fill<St: Store>(
        &mut self,
        alloc: Global,
        store: &mut St,
        c: &Client,
        count: u32,
    ) -> Result<(), PoolErr>
        requires client { IsLiveClient c.now (St.holds store.old) }
        requires blocks { IsBlockCount self.old.blocks }
        requires block_len { self.old.block_len ≡ (St.holds store.old).block_len }
        requires unused { count * each_of self.old ≤ unused_of c.now.tracker (St.holds store.old) }
        requires short { length self.old.bytes + count * each_of self.old < 2 ^ 32 }
        ensures ok { OnOk result (Fills c.now.tracker count self.old self.new (St.holds store.old) (St.holds store.new)) }
        ensures err { OnErr result ((some : ℕ) × Fills c.now.tracker some self.old self.new (St.holds store.old) (St.holds store.new)) }
        ensures cause { IfErr result (WasShort c.now.tracker self.old.blocks (St.signs store.old) (St.signs store.new)) }
        ensures grows { Grows (St.signs store.old) (St.signs store.new) }
        ensures entries { EnteredLoans (St.signs store.old).trail (St.signs store.new).trail }
    {
        for _i in 0..count {
            self.add(alloc, store, c)?;
        }
        Ok(())
    }

    // Frees the last loan.
    fn free_last<St: Store>(&mut self, store: &mut St)
        requires some { 0 < length self.old.loans }
        requires held { (t : ℕ) × AreHeld t (St.holds store.old) self.old.loans }
        ensures went { Shrinks self.old self.new (St.holds store.old) (St.holds store.new) }
        ensures one { length self.new.loans + 1 ≡ length self.old.loans }
        ensures grows { Grows (St.signs store.old) (St.signs store.new) }
        ensures entries { EnteredLoans (St.signs store.old).trail (St.signs store.new).trail }
    {
        let Some(loan) = self.parts.pop() else {
            unreachable!()
        };
        store.free(loan);
    }

    // Frees the last loans, so that this many stay.
    pub(crate) fn shrink<St: Store>(&mut self, store: &mut St, keep: usize)
        requires keep { keep ≤ length self.old.loans }
        requires held { (t : ℕ) × AreHeld t (St.holds store.old) self.old.loans }
        ensures went { Shrinks self.old self.new (St.holds store.old) (St.holds store.new) }
        ensures stay { length self.new.loans ≡ keep }
        ensures grows { Grows (St.signs store.old) (St.signs store.new) }
        ensures entries { EnteredLoans (St.signs store.old).trail (St.signs store.new).trail }
    {
        while self.count() > keep {
            self.free_last(store);
        }
    }

    // As many loans more as there are, or none.
    pub(crate) fn double<St: Store>(
        &mut self,
        alloc: Global,
        store: &mut St,
        c: &Client,
    ) -> Result<(), PoolErr>
        requires held { AreHeld c.now.tracker (St.holds store.old) self.old.loans }
        requires blocks { IsBlockCount self.old.blocks }
        requires block_len { self.old.block_len ≡ (St.holds store.old).block_len }
        requires unused { bytes_of self.old.loans ≤ unused_of c.now.tracker (St.holds store.old) }
        requires short { 2 * bytes_of self.old.loans < 2 ^ 32 }
        ensures ok { OnOk result (Doubles c.now.tracker self.old self.new (St.holds store.old) (St.holds store.new)) }
        ensures err { OnErr result (self.new ≡ self.old) }
        ensures held { OnErr result (Alike (St.holds store.old) (St.holds store.new)) }
        ensures cause { IfErr result (WasShort c.now.tracker self.old.blocks (St.signs store.old) (St.signs store.new)) }
        ensures grows { Grows (St.signs store.old) (St.signs store.new) }
        ensures entries { EnteredLoans (St.signs store.old).trail (St.signs store.new).trail }
    {
        let count = self.parts.len();
        match self.fill(alloc, store, c, count as u32) {
            Ok(()) => Ok(()),
            Err(e) => {
                self.shrink(store, count);
                Err(e)
            }
        }
    }

    // Frees all loans.
    pub(crate) fn give<St: Store>(mut self, store: &mut St)
        requires { (t : ℕ) × AreHeld t (St.holds store.old) self.loans }
        ensures lends { (t : ℕ) → AreHeld t (St.holds store.old) self.loans → Lends t self.loans (St.holds store.new) (St.holds store.old) }
        ensures grows { Grows (St.signs store.old) (St.signs store.new) }
        ensures entries { EnteredLoans (St.signs store.old).trail (St.signs store.new).trail }
    {
        self.shrink(store, 0);
        let Area {
            blocks: _,
            block: _,
            each: _,
            parts,
        } = self;
        parts.destroy_empty();
    }
}
